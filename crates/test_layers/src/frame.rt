//! Rows of `dlms_frame`.

ghost use Rattle.std.specs.Prelude.{IsTrue};
ghost use Rattle.dlms_frame.specs.Frame.{IsAddress};

use crate::answers::{put_number_and, put_shown, put_with_number};
use crate::bench::Bench;
use crate::fault::RowFault;
use crate::hexadecimal::put_hex;
use crate::words::{Words, truth_of};
use dlms_frame::{Address, Deframer, Frame, SentFrame, check};

/// A deframer.
#[derive(Drop)]
pub struct FrameBench {
    deframer: Deframer,
}

/// A deframer that took these bytes, and lends the frame among them.
pub fn deframer_of(bytes: &[u8]) -> Deframer {
    let mut deframer = Deframer::new();
    let _taken = deframer.feed(bytes);
    deframer
}

/// A frame's bytes.
pub fn put_frame(answer: &mut String, frame: &SentFrame) -> Result<(), RowFault> {
    put_hex(answer, frame.put().as_slice())
}

/// An address: `one`, `two` or `four`, and its parts.
fn address_of(words: &mut Words<'_>) -> Result<Address, RowFault> {
    match words.word()? {
        "one" => Ok(Address::One(words.byte()?)),
        "two" => Ok(Address::Two(words.byte()?, words.byte()?)),
        "four" => Ok(Address::Four(words.short()?, words.short()?)),
        _ => Err(RowFault::Form),
    }
}

/// Whether each part has its bits.
fn fits(address: Address) -> bool
    ensures { IsTrue result → IsAddress address }
{
    match address {
        Address::One(part) => part < 128,
        Address::Two(upper, lower) => upper < 128 && lower < 128,
        Address::Four(upper, lower) => upper < 16384 && lower < 16384,
    }
}

/// A frame of its parts: whether it is segmented, destination, source, control, information.
fn put_made(words: &mut Words<'_>, answer: &mut String) -> Result<(), RowFault> {
    let segmented = truth_of(words.word()?)?;
    let dest = address_of(words)?;
    let src = address_of(words)?;
    let control = words.byte()?;
    let info = words.bytes()?;
    if !fits(dest) || !fits(src) || info.len() > 2032 {
        return Err(RowFault::Form);
    }
    let frame = Frame::new(segmented, dest, src, control, &info);
    put_number_and(answer, frame.len() as u64, ' ')?;
    put_hex(answer, frame.put().as_slice())
}

/// The parts of a frame, as `put_made` takes them.
fn put_parts(bytes: &[u8], answer: &mut String) -> Result<(), RowFault> {
    let deframer = deframer_of(bytes);
    let Some(frame) = deframer.frame() else {
        return Err(RowFault::Form);
    };
    put_shown(answer, &frame.segmented)?;
    answer.push(' ')?;
    put_shown(answer, &frame.dest)?;
    answer.push(' ')?;
    put_shown(answer, &frame.src)?;
    put_with_number(answer, " ", u64::from(frame.control))?;
    answer.push(' ')?;
    put_hex(answer, frame.info)
}

impl FrameBench {
    pub fn new() -> Self {
        FrameBench {
            deframer: Deframer::new(),
        }
    }

    /// How many bytes are taken, and the frame that they close.
    fn feed(&mut self, bytes: &[u8], answer: &mut String) -> Result<(), RowFault> {
        let taken = self.deframer.feed(bytes);
        put_number_and(answer, taken as u64, ' ')?;
        match self.deframer.frame() {
            Some(frame) => put_hex(answer, frame.put().as_slice()),
            None => Ok(answer.push_str("no")?),
        }
    }

    /// The same byte by byte: nothing for each byte that closes no frame.
    fn feed_each(&mut self, bytes: &[u8], answer: &mut String) -> Result<(), RowFault> {
        for byte in bytes {
            let _taken = self.deframer.feed(&[*byte]);
            if let Some(frame) = self.deframer.frame() {
                put_hex(answer, frame.put().as_slice())?;
            }
        }
        Ok(())
    }
}

impl Bench for FrameBench {
    fn step(&mut self, words: &mut Words<'_>, answer: &mut String) -> Result<(), RowFault> {
        match words.word()? {
            "check" => put_hex(answer, &check(&words.bytes()?).to_be_bytes()),
            "deframer" => {
                self.deframer = Deframer::new();
                Ok(())
            }
            "idle" => {
                self.deframer.idle();
                Ok(())
            }
            "feed" => self.feed(&words.bytes()?, answer),
            "feed-each" => self.feed_each(&words.bytes()?, answer),
            "frame" => put_made(words, answer),
            "parts" => put_parts(&words.bytes()?, answer),
            _ => Err(RowFault::Form),
        }
    }
}
