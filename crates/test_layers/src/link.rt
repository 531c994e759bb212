//! Rows of `dlms_link`.

ghost use Rattle.std.specs.Prelude.{◌≡◌, ◌≤◌, None, length};

use crate::bench::Bench;
use crate::fault::RowFault;
use crate::frame::{deframer_of, put_frame};
use crate::hexadecimal::put_hex;
use crate::talk::put_talks;
use crate::words::{Words, client_of};
use dlms_frame::{Frame, SentFrame};
use dlms_link::{ClientLink, ClientOut, LinkOut, ServerLink};

/// A meter's link that owes no answer.
#[derive(Drop)]
struct IdleServer {
    link: ServerLink,
    ghost idle: { link.waits ≡ None },
}

/// Both ends of a link.
#[derive(Drop)]
pub struct LinkBench {
    server: Option<IdleServer>,
    client: Option<ClientLink>,
}

/// A word, followed by a frame.
fn put_reply(answer: &mut String, word: &str, frame: &SentFrame) -> Result<(), RowFault> {
    answer.push_str(word)?;
    put_frame(answer, frame)
}

/// The meter's reply to a frame, with this answer if an APDU waits for one.
fn put_served(
    server: &mut IdleServer,
    frame: &Frame<'_>,
    reply: &[u8],
    answer: &mut String,
) -> Result<(), RowFault>
    requires { length reply.now ≤ 1024 }
{
    let (word, frame) = match server.link.on(frame) {
        LinkOut::Nothing => return Ok(answer.push_str("nothing")?),
        LinkOut::Reply(frame) => ("reply ", frame),
        LinkOut::Apdu => ("apdu ", server.link.send(reply)),
        LinkOut::Oversize => ("oversize ", server.link.send(reply)),
        LinkOut::BadLlc => ("bad-llc ", server.link.send(reply)),
        LinkOut::Up(frame) => ("up ", frame),
        LinkOut::Down(frame) => ("down ", frame),
    };
    put_reply(answer, word, &frame)
}

/// How the client handles a frame.
fn put_out(answer: &mut String, out: &ClientOut) -> Result<(), RowFault> {
    match out {
        ClientOut::Nothing => Ok(answer.push_str("nothing")?),
        ClientOut::Up => Ok(answer.push_str("up")?),
        ClientOut::Send(frame) => put_reply(answer, "send ", frame),
        ClientOut::Apdu => Ok(answer.push_str("apdu")?),
        ClientOut::Down => Ok(answer.push_str("down")?),
    }
}

/// The call of a client that is in the place where it may be made; `none` elsewhere.
fn put_call(
    client: &mut ClientLink,
    call: &str,
    words: &mut Words<'_>,
    answer: &mut String,
) -> Result<(), RowFault> {
    match call {
        "connect" if client.is_down() => put_frame(answer, &client.connect()),
        "disconnect" if client.is_idle() => put_frame(answer, &client.disconnect()),
        "send" if client.is_idle() => {
            let apdu = words.bytes()?;
            if apdu.len() > 1024 {
                return Err(RowFault::Form);
            }
            put_frame(answer, &client.send(&apdu))
        }
        "timeout" if client.is_waiting() => match client.timeout() {
            Ok(frame) => put_frame(answer, &frame),
            Err(_) => Ok(answer.push_str("fault")?),
        },
        "hears" => {
            let deframer = deframer_of(&words.bytes()?);
            match deframer.frame() {
                Some(frame) => put_out(answer, &client.on(&frame)),
                None => Err(RowFault::Form),
            }
        }
        "heard" => put_hex(answer, client.apdu()),
        _ => Err(RowFault::Missing),
    }
}

/// Where a client stands.
fn put_standing(client: &ClientLink, answer: &mut String) -> Result<(), RowFault> {
    let standing = if client.is_down() {
        "down"
    } else if client.is_waiting() {
        "waiting"
    } else {
        "idle"
    };
    Ok(answer.push_str(standing)?)
}

impl LinkBench {
    pub fn new() -> Self {
        LinkBench {
            server: None,
            client: None,
        }
    }

    /// The meter's end hears a frame.
    fn serve(&mut self, words: &mut Words<'_>, answer: &mut String) -> Result<(), RowFault> {
        let deframer = deframer_of(&words.bytes()?);
        let Some(frame) = deframer.frame() else {
            return Err(RowFault::Form);
        };
        let reply = words.bytes()?;
        if reply.len() > 1024 {
            return Err(RowFault::Form);
        }
        match &mut self.server {
            Some(server) => put_served(server, &frame, &reply, answer),
            None => Err(RowFault::Missing),
        }
    }

    /// The APDU that came last to the meter's end.
    fn served(&self, answer: &mut String) -> Result<(), RowFault> {
        match &self.server {
            Some(server) => put_hex(answer, server.link.apdu()),
            None => Err(RowFault::Missing),
        }
    }

    /// The client's end.
    fn client(&mut self) -> Result<&mut ClientLink, RowFault> {
        self.client.as_mut().ok_or(RowFault::Missing)
    }
}

impl Bench for LinkBench {
    fn step(&mut self, words: &mut Words<'_>, answer: &mut String) -> Result<(), RowFault> {
        let call = words.word()?;
        match call {
            "server" => {
                let link = ServerLink::new(client_of(words.word()?)?);
                self.server = Some(IdleServer { link });
                Ok(())
            }
            "client" => {
                self.client = Some(ClientLink::new(client_of(words.word()?)?));
                Ok(())
            }
            "on" => self.serve(words, answer),
            "apdu" => self.served(answer),
            "standing" => put_standing(self.client()?, answer),
            "talks" => put_talks(words.number()?, answer),
            _ => put_call(self.client()?, call, words, answer),
        }
    }
}
