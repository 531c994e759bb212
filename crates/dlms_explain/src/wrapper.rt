//! APDUs that are in no frame: in the wrapper of IEC 62056-47, after a head of its version, the two ports and the length; or alone.

ghost use Rattle.std.specs.Prelude.{◌≡◌};

use crate::content::explain_apdu;
use crate::frame_text::sign;
use crate::json::write_note;
use crate::session::Form;
use crate::short::{Beside, View, write_beside, write_unframed};
use crate::words::{Text, end, line, number};
use byteorder::{BigEndian, ByteOrder};
use dlms_dissect::{Apdu, Services, Side, behind_llc, is_counted, read_apdu};
use dlms_names::apdu_name;
use dlms_security::Opener;
use std::alloc::Allocator;

/// How long the head is.
const HEAD: usize = 8;

/// The only version.
const VERSION: u16 = 1;

/// The port of a meter's management.
const MANAGEMENT: u16 = 1;

/// The fewest octets that are taken as an APDU, but for those of a release or an exception.
const LEAST_APDU: usize = 5;

/// The head of an APDU.
#[derive(Clone, Copy)]
struct Head {
    version: u16,
    from: u16,
    to: u16,
    len: usize,
}

/// The octets of an APDU, with its head if it has one.
#[derive(Clone, Copy)]
struct Message<'a> {
    side: Option<Side>,
    head: Option<Head>,
    apdu: &'a [u8],
    whole: &'a [u8],
}

/// The requested object between two ports, and how it is reported.
#[derive(Drop)]
struct Asked<A: Allocator, O> {
    alloc: A,
    raw: bool,
    /// The client's and the meter's port of the last APDU.
    ports: (u16, u16),
    services: Services<A>,
    view: View<A, O>,
}

/// Both directions of a connection, octets whose direction is not known, and the requested objects.
#[derive(Drop)]
pub struct Wrapped<A: Allocator, O> {
    client: Vec<u8, A>,
    meter: Vec<u8, A>,
    bare: Vec<u8, A>,
    asked: Asked<A, O>,
}

/// The head in front, once it is there.
fn head_of(octets: &[u8]) -> Option<Head> {
    if octets.len() < HEAD {
        return None;
    }
    Some(Head {
        version: BigEndian::read_u16(octets),
        from: BigEndian::read_u16(&octets[2..]),
        to: BigEndian::read_u16(&octets[4..]),
        len: usize::from(BigEndian::read_u16(&octets[6..])),
    })
}

/// Whether a head of the wrapper begins so: its version is 1, and no port is 0, which is no station's (IEC 62056-47, reserved ports).
pub fn begins_head(octets: &[u8]) -> bool {
    match octets {
        [0, 1, 0, 0, ..] => false,
        [0, 1, _, _, 0, 0, ..] => false,
        [0, 1, ..] => true,
        _ => false,
    }
}

/// Whether a head of the wrapper is here, and an APDU begins after it or is still to come.
pub fn begins_message(octets: &[u8]) -> bool {
    match octets.get(HEAD..) {
        Some([tag, ..]) => begins_head(octets) && apdu_name(*tag).is_some(),
        Some([]) => begins_head(octets),
        None => false,
    }
}

/// Whether octets are a message of the wrapper as a whole.
pub fn is_message(octets: &[u8]) -> bool {
    match head_of(octets) {
        Some(head) => begins_message(octets) && head.len.saturating_add(HEAD) == octets.len(),
        None => false,
    }
}

/// Who sends an APDU that begins with this octet, if only one end does.
fn side_of_tag(tag: u8) -> Option<Side> {
    let name = apdu_name(tag)?;
    if name.starts_with("general") {
        None
    } else if name.ends_with("request") && !name.contains("notification") {
        Some(Side::Client)
    } else {
        Some(Side::Meter)
    }
}

/// Who sends an APDU after this head.
fn side_of(said: Option<Side>, head: Head, apdu: &[u8]) -> Option<Side> {
    let by_port = match (head.from, head.to) {
        (MANAGEMENT, _) => Some(Side::Meter),
        (_, MANAGEMENT) => Some(Side::Client),
        _ => None,
    };
    said.or(side_of_tag(apdu.first().copied().unwrap_or(0)))
        .or(by_port)
}

/// Whether octets are an APDU as a whole.
fn is_apdu<A: Allocator + Copy>(alloc: A, side: Option<Side>, octets: &[u8]) -> bool {
    match octets {
        [0x60 | 0x61, ..] => is_counted(octets),
        [0x62 | 0x63 | 0xd8, ..] => !is_unreadable(alloc, side, octets),
        [tag, ..] if octets.len() >= LEAST_APDU && apdu_name(*tag).is_some() => {
            !is_unreadable(alloc, side, octets)
        }
        _ => false,
    }
}

/// Whether no APDU has this form. If memory is refused, none has.
fn is_unreadable<A: Allocator + Copy>(alloc: A, side: Option<Side>, octets: &[u8]) -> bool {
    match read_apdu(alloc, side, octets) {
        Ok(apdu) => {
            let is_unreadable = matches!(&apdu, Apdu::Unreadable(_));
            drop(apdu);
            is_unreadable
        }
        Err(_) => true,
    }
}

/// The message of octets that are an APDU alone, or one after the octets of the LLC.
fn alone<A: Allocator + Copy>(alloc: A, said: Option<Side>, octets: &[u8]) -> Option<Message<'_>> {
    let apdu = behind_llc(said, octets).unwrap_or(octets);
    let side = said.or(side_of_tag(*apdu.first()?));
    if !is_apdu(alloc, side, apdu) {
        return None;
    }
    Some(Message {
        side,
        head: None,
        apdu,
        whole: apdu,
    })
}

/// The words of a head, without the end of their line.
fn write_head<A: Allocator>(text: &mut Text<A>, message: Message<'_>) {
    text.push(sign(message.side));
    match message.head {
        Some(head) => {
            text.push("wrapper port ");
            number(text, u64::from(head.from));
            text.push(" to ");
            number(text, u64::from(head.to));
            text.push("; length ");
            number(text, head.len as u64);
        }
        None => {
            text.push("APDU; length ");
            number(text, message.apdu.len() as u64);
        }
    }
}

/// Shown if there is no head.
const NO_WRAPPER: &str = "(octets that are of no wrapper)";

/// Shown for an APDU that is not complete.
const NOT_WHOLE: &str = "(the last APDU is not whole)";

/// Explains an APDU in the view's text. Returns how many of its octets may be shown beside it.
fn explain_view<A: Allocator + Copy, O: Opener>(
    view: &mut View<A, O>,
    alloc: A,
    side: Option<Side>,
    services: &mut Services<A>,
    apdu: &[u8],
) -> usize {
    view.full.clear();
    explain_apdu(
        &mut view.full,
        alloc,
        &mut view.opening,
        side,
        services,
        apdu,
    )
}

impl<A: Allocator + Copy, O: Opener> Asked<A, O> {
    /// What was asked for between other ports is forgotten.
    fn follow(&mut self, side: Option<Side>, head: Head) {
        let ports = match side {
            Some(Side::Meter) => (head.to, head.from),
            _ => (head.from, head.to),
        };
        if self.ports != ports {
            self.services = Services::new(self.alloc, self.raw);
            self.view.opening.forget();
            self.view.opening.forget_units();
            self.ports = ports;
        }
    }

    /// Explains an APDU, put together in the requested form.
    fn tell_view(&mut self, message: Message<'_>, text: &mut Text<A>) {
        let Message {
            side,
            head,
            apdu,
            whole,
        } = message;
        let hex = self.view.form.hex;
        let shown = explain_view(&mut self.view, self.alloc, side, &mut self.services, apdu);
        if self.view.full.check_memory().is_err() {
            text.refuse();
        }
        let front = whole.len().saturating_sub(apdu.len());
        let beside = Beside {
            octets: if hex {
                whole.get(..shown.saturating_add(front)).unwrap_or(whole)
            } else {
                &[]
            },
            is_whole: shown >= apdu.len(),
        };
        if self.view.form.layout.is_one_line() {
            let ports = head.map(|_| self.ports);
            write_unframed(text, &self.view, side, ports, beside);
            return;
        }
        write_head(text, message);
        write_beside(text, beside);
        end(text);
        text.push(self.view.full.as_str());
    }

    /// Explains an APDU.
    fn tell(&mut self, message: Message<'_>, text: &mut Text<A>) {
        let side = message.side;
        if let Some(head) = message.head {
            self.follow(side, head);
        }
        if self.view.form.is_at_once() {
            write_head(text, message);
            end(text);
            explain_apdu(
                text,
                self.alloc,
                &mut self.view.opening,
                side,
                &mut self.services,
                message.apdu,
            );
        } else {
            self.tell_view(message, text);
        }
        if side == Some(Side::Meter) {
            self.services.pass();
        }
    }

    /// The octets that one end has sent, with the earlier ones, and how many of them are explained.
    fn tell_all(&mut self, said: Option<Side>, octets: &[u8], text: &mut Text<A>) -> usize {
        let mut rest = octets;
        for _ in 0..octets.len() {
            let Some(head) = head_of(rest) else {
                break;
            };
            if head.version != VERSION {
                write_note(text, self.view.form.layout, NO_WRAPPER);
                return octets.len();
            }
            let len = head.len.saturating_add(HEAD);
            let (Some(whole), Some(next)) = (rest.get(..len), rest.get(len..)) else {
                break;
            };
            let apdu = whole.get(HEAD..).unwrap_or(&[]);
            let message = Message {
                side: side_of(said, head, apdu),
                head: Some(head),
                apdu,
                whole,
            };
            self.tell(message, text);
            rest = next;
        }
        octets.len().saturating_sub(rest.len())
    }

    /// Octets of one end after the earlier ones that are kept, and the explanation of the APDUs that are then complete.
    fn take(
        &mut self,
        kept: &mut Vec<u8, A>,
        said: Option<Side>,
        octets: &[u8],
        text: &mut Text<A>,
    ) {
        if kept.extend_from_slice(octets).is_err() {
            text.refuse();
            return;
        }
        let told = self.tell_all(said, kept.as_slice(), text).min(kept.len());
        if told == 0 {
            return;
        }
        let left = kept.len() - told;
        kept.copy_within(told.., 0);
        kept.truncate(left);
    }
}

impl<A: Allocator + Copy, O: Opener> Wrapped<A, O> {
    /// Before the first octet. No memory is taken here.
    pub fn new(alloc: A, form: Form, opener: O) -> Self
        ensures raw { result.asked.services.raw ≡ form.raw }
        ensures form { result.asked.view.form ≡ form }
    {
        Wrapped {
            client: Vec::new(alloc),
            meter: Vec::new(alloc),
            bare: Vec::new(alloc),
            asked: Asked {
                alloc,
                raw: form.raw,
                ports: (0, 0),
                services: Services::new(alloc, form.raw),
                view: View::new(alloc, form, opener),
            },
        }
    }

    /// When octets came: a line, or in front of each APDU's.
    pub fn stamp(&mut self, words: &str, text: &mut Text<A>) {
        if self.asked.view.form.layout.is_one_line() {
            self.asked.view.stamp_with(words, text);
        } else {
            line(text, 0, words);
        }
    }

    /// Takes octets of one end, or of either, and appends the explanation of the APDUs that are then complete.
    pub fn octets(&mut self, said: Option<Side>, octets: &[u8], text: &mut Text<A>) {
        match said {
            Some(Side::Client) => self.asked.take(&mut self.client, said, octets, text),
            Some(Side::Meter) => self.asked.take(&mut self.meter, said, octets, text),
            None => self.asked.take(&mut self.bare, said, octets, text),
        }
    }

    /// Whether an APDU of this end has begun and is not complete.
    fn is_within(&self, said: Option<Side>) -> bool {
        match said {
            Some(Side::Client) => !self.client.is_empty(),
            Some(Side::Meter) => !self.meter.is_empty(),
            None => !self.bare.is_empty(),
        }
    }

    /// Takes the octets of a line, with this time, that continue or begin messages of the wrapper, or are an APDU alone, and appends
    /// their explanation. Whether they are that.
    pub fn take_line(
        &mut self,
        said: Option<Side>,
        octets: &[u8],
        stamp: &str,
        text: &mut Text<A>,
    ) -> bool {
        if self.is_within(said) || begins_message(octets) {
            self.asked.view.stamp_with(stamp, text);
            self.octets(said, octets, text);
            return true;
        }
        match alone(self.asked.alloc, said, octets) {
            Some(message) => {
                self.asked.view.stamp_with(stamp, text);
                self.asked.tell(message, text);
                true
            }
            None => false,
        }
    }

    /// No more octets come.
    pub fn end(&mut self, text: &mut Text<A>) {
        if !self.client.is_empty() || !self.meter.is_empty() || !self.bare.is_empty() {
            write_note(text, self.asked.view.form.layout, NOT_WHOLE);
        }
    }
}
