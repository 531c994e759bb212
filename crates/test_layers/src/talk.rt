//! A whole talk over a line: forty requests and their answers, and one frame that is lost.

ghost use Rattle.std.specs.Prelude.{◌≡◌, None};

use crate::answers::{put_number, put_with_number};
use crate::fault::RowFault;
use arrayvec::ArrayVec;
use dlms_frame::{Client, Deframer, Frame, SentFrame};
use dlms_link::{ClientLink, ClientOut, LinkOut, ServerLink};

/// Lengths of APDUs, those round the length of a segment among them.
const LENGTHS: [usize; 40] = [
    0, 1, 2, 3, 4, 31, 32, 63, 64, 100, 124, 125, 126, 127, 128, 129, 130, 200, 252, 253, 254, 255,
    256, 300, 381, 382, 383, 509, 510, 511, 512, 637, 638, 765, 766, 893, 894, 1021, 1022, 1024,
];

/// How far a talk came.
#[derive(Clone, Copy)]
struct Course {
    /// The frames that went.
    frames: u32,
    /// The requests that the meter got.
    served: usize,
    /// The answers that the client got.
    taken: usize,
    /// The APDUs that were others than those that were sent.
    wrong: u32,
}

/// An APDU of this length, whose bytes tell it from others.
fn apdu_of(len: usize, first: usize) -> ArrayVec<u8, 1024> {
    let mut apdu = ArrayVec::new();
    for i in 0..len {
        let _ = apdu.try_push(((i % 97) + (first % 100)) as u8);
    }
    apdu
}

/// The n-th request.
fn request_of(n: usize) -> ArrayVec<u8, 1024> {
    apdu_of(LENGTHS[n % 40], n)
}

/// The n-th answer.
fn answer_of(n: usize) -> ArrayVec<u8, 1024> {
    apdu_of(LENGTHS[(n % 40) * 7 % 40], n % 40 + 50)
}

/// A frame as the other end finds it.
fn over_the_line(deframer: &mut Deframer, frame: &SentFrame) -> Option<SentFrame> {
    let _taken = deframer.feed(frame.put().as_slice());
    let came = deframer.frame()?;
    came.owned()
}

impl Course {
    /// The meter got an APDU.
    fn serves(&mut self, apdu: &[u8]) {
        if apdu != request_of(self.served).as_slice() {
            self.wrong = self.wrong.saturating_add(1);
        }
    }

    /// The client got an APDU.
    fn takes(&mut self, apdu: &[u8]) {
        if apdu != answer_of(self.taken).as_slice() {
            self.wrong = self.wrong.saturating_add(1);
        }
        self.taken = self.taken.saturating_add(1);
    }
}

/// The meter's reply: to an APDU the next answer.
fn meter_row(meter: &mut ServerLink, frame: &Frame<'_>, course: &mut Course) -> Option<SentFrame>
    requires { meter.old.waits ≡ None }
    ensures { meter.new.waits ≡ None }
{
    match meter.on(frame) {
        LinkOut::Nothing => None,
        LinkOut::Reply(reply) | LinkOut::Up(reply) | LinkOut::Down(reply) => Some(reply),
        LinkOut::Apdu => {
            course.serves(meter.apdu());
            let reply = meter.send(answer_of(course.served).as_slice());
            course.served = course.served.saturating_add(1);
            Some(reply)
        }
        LinkOut::Oversize | LinkOut::BadLlc => {
            course.wrong = course.wrong.saturating_add(1);
            Some(meter.send(&[]))
        }
    }
}

/// The client's next frame: after an answer the next request, and after the last one a disconnect.
fn client_row(
    client: &mut ClientLink,
    frame: &Frame<'_>,
    course: &mut Course,
) -> Option<SentFrame> {
    match client.on(frame) {
        ClientOut::Nothing | ClientOut::Down => None,
        ClientOut::Send(next) => Some(next),
        ClientOut::Up => Some(client.send(request_of(0).as_slice())),
        ClientOut::Apdu => {
            course.takes(client.apdu());
            if course.taken < 40 {
                Some(client.send(request_of(course.taken).as_slice()))
            } else {
                Some(client.disconnect())
            }
        }
    }
}

/// A line between a client and a meter, on which one frame is lost.
#[derive(Drop)]
struct Talk {
    meter: ServerLink,
    client: ClientLink,
    to_meter: Deframer,
    to_client: Deframer,
    lost: u32,
    course: Course,
    ghost idle: { meter.waits ≡ None },
}

impl Talk {
    fn new(lost: u32) -> Self {
        Talk {
            meter: ServerLink::new(Client::Management),
            client: ClientLink::new(Client::Management),
            to_meter: Deframer::new(),
            to_client: Deframer::new(),
            lost,
            course: Course {
                frames: 0,
                served: 0,
                taken: 0,
                wrong: 0,
            },
        }
    }

    /// Whether the next frame arrives.
    fn arrives(&mut self) -> bool {
        let number = self.course.frames;
        self.course.frames = number.saturating_add(1);
        number != self.lost
    }

    /// The meter's reply, if the frame arrives.
    fn there(&mut self, frame: &SentFrame) -> Option<SentFrame> {
        if !self.arrives() {
            return None;
        }
        let came = over_the_line(&mut self.to_meter, frame)?;
        meter_row(&mut self.meter, &came.lent(), &mut self.course)
    }

    /// The client's next frame, if the reply arrives; otherwise it repeats its last one after a while.
    fn back(&mut self, reply: Option<SentFrame>) -> Option<SentFrame> {
        if let Some(frame) = reply {
            if self.arrives() {
                let came = over_the_line(&mut self.to_client, &frame)?;
                return client_row(&mut self.client, &came.lent(), &mut self.course);
            }
        }
        if self.client.is_waiting() {
            return self.client.timeout().ok();
        }
        None
    }

    /// The whole talk.
    fn run(&mut self) {
        let mut out = if self.client.is_down() {
            Some(self.client.connect())
        } else {
            None
        };
        'frames: for _ in 0..10_000u64 {
            let Some(frame) = out else {
                break 'frames;
            };
            let reply = self.there(&frame);
            out = self.back(reply);
        }
    }
}

/// Plays a talk on which the frame of this number is lost, and says how many frames went.
fn put_talk(lost: u32, answer: &mut String) -> Result<u32, RowFault> {
    let mut talk = Talk::new(lost);
    talk.run();
    let Course {
        frames,
        served,
        taken,
        wrong,
    } = talk.course;
    if served != 40 || taken != 40 || wrong != 0 || !talk.client.is_down() {
        put_with_number(answer, "lost ", u64::from(lost))?;
        put_with_number(answer, ": ", served as u64)?;
        put_with_number(answer, " ", taken as u64)?;
        put_with_number(answer, " ", u64::from(wrong))?;
        answer.push_str(", ")?;
    }
    Ok(frames)
}

/// Plays a talk without a loss, and each of those that lose one of its frames: nothing is said of those in which all forty
/// requests and answers come through, and the link goes down.
pub fn put_talks(least: u32, answer: &mut String) -> Result<(), RowFault> {
    let frames = put_talk(u32::MAX, answer)?;
    if frames <= least {
        put_number(answer, u64::from(frames))?;
        answer.push_str(" frames, ")?;
    }
    for lost in 0..frames.min(10_000) {
        if put_talk(lost, answer)? <= frames {
            put_with_number(answer, "lost ", u64::from(lost))?;
            answer.push_str(": no more frames, ")?;
        }
    }
    Ok(answer.push_str("all")?)
}
