//! The notifications and telegrams in the octets of a line: taken, refused or skipped, printed and counted.

use crate::Fault;
use crate::filed::file_row;
use crate::skipped::{refusal_words, skip_words};
use arrayvec::ArrayVec;
use dlms_listen::{
    Carrier, Content, Entry, Listener, Received, Receiver, Refusal, entries_of, octets_of,
    telegram_entries,
};
use dlms_printing::{Notified, Teller};
use dlms_security::MOST_APDU;
use dlms_telegram::MOST_TELEGRAM;
use dlms_words::OutputFormat;
use std::alloc::{AllocError, Global};
use std::fs::{File, Files};
use std::io::Write;
use std::net::Net;

/// The first octet of a telegram in clear.
const SLASH: u8 = b'/';

/// What notifications are printed as.
#[derive(Drop)]
pub struct Printing {
    pub format: OutputFormat,
    /// The names of the columns of CSV, if that is wanted.
    pub names: Vec<[u8; 6]>,
}

/// The numbers of notifications, of refused ones, and of damaged frames and octets between frames.
#[derive(Clone, Copy)]
pub struct Tally {
    pub received: u64,
    pub refused: u64,
    pub skipped: u64,
    pub noise: u64,
    /// How many notifications are still wanted.
    pub left: Option<u32>,
}

impl Tally {
    /// Before anything came, with this many notifications wanted.
    pub fn new(left: Option<u32>) -> Self {
        Tally {
            received: 0,
            refused: 0,
            skipped: 0,
            noise: 0,
            left,
        }
    }

    /// Whether anything came.
    pub fn has_any(&self) -> bool {
        self.received > 0 || self.refused > 0 || self.skipped > 0 || self.noise > 0
    }
}

/// The receiver of all lines of a run, its output and its counts.
#[derive(Drop)]
pub struct Hearing<'a, 'k, 'o, H, W, E> {
    pub host: &'o H,
    pub alloc: Global,
    /// The folder of the readings files.
    pub folder: Option<&'a str>,
    pub receiver: Receiver<'k>,
    pub printing: Printing,
    pub is_quiet: bool,
    pub tally: Tally,
    pub output: &'o mut W,
    pub errors: &'o mut E,
}

impl<'a, H: Net + Files<File = File> + AllocGlobal, W: Write, E: Write> Hearing<
    'a,
    '_,
    '_,
    H,
    W,
    E,
> {
    /// Reports a refused notification. An error in writing does not matter.
    fn tell_refusal(&mut self, from: &str, refusal: Refusal) {
        self.tally.refused = self.tally.refused.saturating_add(1);
        if self.is_quiet {
            return;
        }
        let (words, title) = refusal_words(refusal);
        let _said = write!(self.errors, "refused {from}: {words}");
        if let Some(title) = title {
            let _said = write!(self.errors, ", ");
            for octet in title {
                let _said = write!(self.errors, "{octet:02x}");
            }
        }
        if let Refusal::Replay { counter, last, .. } = refusal {
            let _said = write!(self.errors, ", counter {counter} after {last}");
        }
        let _said = writeln!(self.errors);
    }

    /// Reports skipped octets. An error in writing is ignored.
    fn tell_skipped(&mut self, from: &str, listener: &Listener) {
        let noise = listener.noise();
        if noise > 0 {
            self.tally.noise = self.tally.noise.saturating_add(u64::from(noise));
            if !self.is_quiet {
                let _said = writeln!(
                    self.errors,
                    "skipped {from}: {noise} octets in no frame or telegram, or in a damaged one"
                );
            }
        }
        if let Some(skip) = listener.skipped() {
            self.tally.skipped = self.tally.skipped.saturating_add(1);
            if !self.is_quiet {
                let words = skip_words(skip);
                let _said = writeln!(self.errors, "skipped {from}: {words}");
            }
        }
    }

    /// Prints a notification or a telegram.
    fn print(
        &mut self,
        place: &'a str,
        from: &str,
        received: Received<'_>,
    ) -> Result<(), Fault<'a>> {
        match received.content {
            Content::Notification(notification) => {
                let entries = entries_of(self.alloc, notification.value)?;
                self.print_entries(place, from, received, entries.as_slice())
            }
            Content::Telegram(telegram) => {
                let octets = octets_of(self.alloc, &telegram)?;
                let entries = telegram_entries(self.alloc, &telegram, octets.as_slice())?;
                self.print_entries(place, from, received, entries.as_slice())
            }
        }
    }

    /// Prints the values of a notification or a telegram.
    fn print_entries(
        &mut self,
        place: &'a str,
        from: &str,
        received: Received<'_>,
        entries: &[Entry<'_>],
    ) -> Result<(), Fault<'a>> {
        let notified = Notified {
            from,
            received,
            entries,
        };
        let mut teller = Teller::new(self.alloc, place, self.output);
        let told = if !self.printing.names.is_empty() {
            teller.put_notified_csv(&notified, self.printing.names.as_slice())
        } else if self.printing.format == OutputFormat::Json {
            teller.put_notified_json(&notified)
        } else {
            teller.put_notified(&notified)
        };
        drop(teller);
        told?;
        if self.output.flush().is_err() {
            return Err(Fault::Output);
        }
        match self.folder {
            Some(folder) => file_row(self.host, folder, &notified, self.errors),
            None => Ok(()),
        }
    }

    /// Counts a notification, and prints it.
    fn count(
        &mut self,
        place: &'a str,
        from: &str,
        received: Received<'_>,
    ) -> Result<(), Fault<'a>> {
        self.print(place, from, received)?;
        self.tally.received = self.tally.received.saturating_add(1);
        if let Some(left) = self.tally.left {
            self.tally.left = Some(left.saturating_sub(1));
        }
        Ok(())
    }

    /// Takes an APDU.
    fn take(&mut self, place: &'a str, from: &str, apdu: &[u8]) -> Result<(), Fault<'a>> {
        let mut plain: ArrayVec<u8, MOST_APDU> = ArrayVec::new();
        match self.receiver.receive(apdu, &mut plain) {
            Ok(received) => self.count(place, from, received),
            Err(refusal) => {
                self.tell_refusal(from, refusal);
                Ok(())
            }
        }
    }

    /// Takes a telegram.
    #[inline(never)]
    fn take_telegram(
        &mut self,
        place: &'a str,
        from: &str,
        octets: &[u8],
    ) -> Result<(), Fault<'a>> {
        let mut plain: ArrayVec<u8, MOST_TELEGRAM> = ArrayVec::new();
        match self.receiver.receive_telegram(octets, &mut plain) {
            Ok(received) => self.count(place, from, received),
            Err(refusal) => {
                self.tell_refusal(from, refusal);
                Ok(())
            }
        }
    }

    /// Whether further notifications are wanted.
    pub fn goes_on(&self) -> bool {
        self.tally.left != Some(0)
    }

    /// Hears octets of a line.
    pub fn hear(
        &mut self,
        place: &'a str,
        from: &str,
        ear: &mut Ear,
        octets: &[u8],
    ) -> Result<(), Fault<'a>> {
        let has_any = self.hear_with(place, from, &mut ear.listener, octets)?;
        if has_any || ear.listener.carrier() != Some(Carrier::Hdlc) {
            ear.is_decided = true;
            ear.texts = None;
        }
        if ear.is_decided {
            return Ok(());
        }
        if ear.texts.is_none() {
            ear.texts = Some(boxed_listener(self.alloc, Some(Carrier::Telegrams))?);
        }
        let Some(texts) = &mut ear.texts else {
            return Ok(());
        };
        let Some(count) = find_telegram(texts, &mut ear.has_sealed, octets) else {
            return Ok(());
        };
        ear.is_decided = true;
        self.tell_skipped(from, texts);
        if let Some(telegram) = texts.telegram() {
            self.take_telegram(place, from, telegram)?;
        }
        let rest = octets.get(count..).unwrap_or(&[]);
        self.hear_with(place, from, texts, rest)?;
        if let Some(texts) = ear.texts.take() {
            ear.listener = texts;
        }
        Ok(())
    }

    /// Hears octets of a line of a known carrier. Returns whether a frame or a message was among them.
    fn hear_with(
        &mut self,
        place: &'a str,
        from: &str,
        listener: &mut Listener,
        octets: &[u8],
    ) -> Result<bool, Fault<'a>> {
        let mut rest = octets;
        let mut has_any = false;
        for _ in 0..octets.len() {
            if rest.is_empty() || !self.goes_on() {
                return Ok(has_any);
            }
            let count = listener.feed(rest);
            self.tell_skipped(from, listener);
            has_any = has_any || listener.skipped().is_some();
            if let Some(apdu) = listener.apdu() {
                has_any = true;
                self.take(place, from, apdu)?;
            } else if let Some(octets) = listener.telegram() {
                self.take_telegram(place, from, octets)?;
            }
            rest = rest.get(count..).unwrap_or(&[]);
        }
        Ok(has_any)
    }

    /// A line is at its end.
    pub fn close(&mut self, from: &str, ear: &mut Ear) {
        let listener = &mut ear.listener;
        listener.close();
        self.tell_skipped(from, listener);
    }

    /// Reports how many notifications came. An error in writing does not matter.
    pub fn tell_tally(&mut self) {
        if self.is_quiet {
            return;
        }
        let Tally {
            received,
            refused,
            skipped,
            noise,
            ..
        } = self.tally;
        let _said = writeln!(
            self.errors,
            "{received} notifications, {refused} refused, {skipped} skipped, {noise} octets of noise"
        );
    }
}

/// What hears a line. One that may begin within a frame or a telegram is heard as both, until the first of either is whole.
#[derive(Drop)]
pub struct Ear {
    listener: Box<Listener>,
    texts: Option<Box<Listener>>,
    is_decided: bool,
    /// Whether the octets of a ciphered telegram came. They may also have been in a frame, whose end follows them.
    has_sealed: bool,
}

impl Ear {
    /// At the beginning of a stream.
    pub fn new(alloc: Global, carrier: Option<Carrier>) -> Result<Self, AllocError> {
        Ok(Ear {
            listener: boxed_listener(alloc, carrier)?,
            texts: None,
            is_decided: false,
            has_sealed: false,
        })
    }
}

/// A listener at the beginning of a stream, which is too large for the frames of the functions that keep it.
#[inline(never)]
fn boxed_listener(alloc: Global, carrier: Option<Carrier>) -> Result<Box<Listener>, AllocError> {
    Ok(Box::new(alloc, Listener::new(carrier))?)
}

/// Looks for telegrams in octets in which no frame is whole: for one in clear, or for a second one that is ciphered. Returns the number
/// of octets up to its end.
fn find_telegram(listener: &mut Listener, has_sealed: &mut bool, octets: &[u8]) -> Option<usize> {
    let mut rest = octets;
    for _ in 0..octets.len() {
        let count = listener.feed(rest);
        rest = rest.get(count..).unwrap_or(&[]);
        match listener.telegram() {
            Some([SLASH, ..]) => return Some(octets.len().saturating_sub(rest.len())),
            Some(_) if *has_sealed => return Some(octets.len().saturating_sub(rest.len())),
            Some(_) => *has_sealed = true,
            None => {}
        }
        if rest.is_empty() {
            return None;
        }
    }
    None
}
