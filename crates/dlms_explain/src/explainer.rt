//! Lines, explained: the octets of each line go to the readers of `dlms_dissect`, and what these tell goes to the text functions,
//! which see no octet. Octets are frames, messages of the TCP wrapper, or an APDU alone.

ghost use Rattle.std.specs.Prelude.{◌≡◌, ◌≤◌, length, nat_le};
ghost use Rattle.dlms_explain.specs.Beside.{beside};

use crate::content::explain_content;
use crate::digits::octets_of;
use crate::dump::{DumpLine, Offset, dump_line};
use crate::echo_text::{Written, write_echo};
use crate::frame_text::{write_frame, write_stray};
use crate::json::{begin_note, end_note, write_note};
use crate::layout::Layout;
use crate::logged::{Logged, is_xml, logged_of, timed_of};
use crate::messages::Messages;
use crate::session::Form;
use crate::short::{Beside, View, write_view};
use crate::words::{Text, end, line};
use dlms_dissect::{
    Control, Found, Line, Side, Stretch, Talk, Talks, behind_llc, first_piece, heading_of, line_of,
    parties_of, read, side_of,
};
use dlms_frame::Frame;
use dlms_security::{NoKeys, Opener};
use std::alloc::{AllocError, Allocator, Global};
use std::str;

/// Explains lines: those of a transcript (`> HEX` from the client, `< HEX` from the meter), or bare pairs of hexadecimal digits.
///
/// It keeps a stretch of bytes for each direction, what is under way of eight talks, and no more.
#[derive(Drop)]
pub struct Explainer<A: Allocator = Global, O = NoKeys> {
    alloc: A,
    client: Stretch<A>,
    meter: Stretch<A>,
    bare: Stretch<A>,
    talks: Talks<A>,
    view: View<A, O>,
    /// APDUs that are in no frame.
    pub(crate) wrapped: Messages<A, O>,
    /// How far a dump has come whose lines stand here.
    dump: Option<Offset>,
}

/// The flag of a frame.
const FLAG: u8 = 0x7e;

/// The number of octets after the information of a frame: its check and its flag.
const BEHIND: usize = 3;

/// The octets of a frame to show beside it: all, or its head with as many octets of its information as may be shown.
fn beside_of<'a>(octets: &'a [u8], info: usize, shown: usize) -> Beside<'a>
    ensures octets { result.octets.now ≡ beside octets.now info shown }
    ensures whole { result.is_whole ≡ nat_le info shown }
{
    if shown >= info {
        return Beside {
            octets,
            is_whole: true,
        };
    }
    let len = octets
        .len()
        .saturating_sub(info)
        .saturating_sub(BEHIND)
        .saturating_add(shown)
        .min(octets.len());
    Beside {
        octets: &octets[..len],
        is_whole: false,
    }
}

/// Explains a frame with these octets, of this side, in its session.
fn tell_frame<A: Allocator + Copy, O: Opener>(
    text: &mut Text<A>,
    view: &mut View<A, O>,
    alloc: A,
    side: Option<Side>,
    talk: &mut Talk<A>,
    frame: &Frame<'_>,
    octets: &[u8],
) {
    let heading = heading_of(frame);
    if view.form.is_at_once() {
        write_frame(text, side, heading);
        end(text);
        explain_content(text, alloc, &mut view.opening, side, talk, frame);
        return;
    }
    let hex = view.form.hex;
    view.full.clear();
    let shown = explain_content(&mut view.full, alloc, &mut view.opening, side, talk, frame);
    if view.full.check_memory().is_err() {
        text.refuse();
    }
    let octets: &[u8] = if hex { octets } else { &[] };
    let beside = beside_of(octets, frame.info.len(), shown);
    write_view(text, view, side, heading, beside);
}

/// If the meter's frames are not in the log, the client's number of the next one is right: no frame is out of turn for it.
fn expect_unheard<A: Allocator + Copy>(talk: &mut Talk<A>, side: Option<Side>, control: u8) {
    if let (Some(Side::Client), Control::Information { receive, .. }) = (side, read(control)) {
        talk.meter.expect(receive);
    }
}

/// Who sends a frame. A UI frame without the LLC of a client is a notification of a meter or a piece of one, also if the client's
/// address has two octets, as a meter's has.
fn sender_of(said: Option<Side>, frame: &Frame<'_>) -> Option<Side> {
    match read(frame.control) {
        Control::Ui if said.is_none() && behind_llc(Some(Side::Client), frame.info).is_none() => {
            Some(Side::Meter)
        }
        _ => side_of(said, frame),
    }
}

/// Explains a frame with these octets.
fn explain_frame<A: Allocator + Copy, O: Opener>(
    text: &mut Text<A>,
    view: &mut View<A, O>,
    alloc: A,
    said: Option<Side>,
    talks: &mut Talks<A>,
    frame: &Frame<'_>,
    octets: &[u8],
) {
    let side = sender_of(said, frame);
    let parties = parties_of(side, frame);
    view.opening.follow(parties);
    let mut talk = talks.take(alloc, parties);
    view.has_answers = view.has_answers || side == Some(Side::Meter);
    if !view.has_answers {
        expect_unheard(&mut talk, side, frame.control);
    }
    tell_frame(text, view, alloc, side, &mut talk, frame, octets);
    if talks.put(talk).is_err() {
        text.refuse();
    }
}

/// The lines of the first bytes of a stretch, which belong to no frame.
fn explain_stray<A: Allocator>(
    text: &mut Text<A>,
    layout: Layout,
    said: Option<Side>,
    stretch: &Stretch<A>,
    before: usize,
) {
    let (place, bytes) = stretch.stray(before);
    let mut place = place;
    let mut rest = bytes;
    'pieces: while !rest.is_empty() {
        let piece = first_piece(rest);
        write_stray(text, layout, said, place, piece);
        place = place.saturating_add(piece.len as u64);
        rest = &rest[piece.len..];
    }
}

/// The lines of the bytes of a stretch.
fn explain_bytes<A: Allocator + Copy, O: Opener>(
    text: &mut Text<A>,
    view: &mut View<A, O>,
    alloc: A,
    said: Option<Side>,
    stretch: &mut Stretch<A>,
    talks: &mut Talks<A>,
    bytes: &[u8],
) {
    let mut rest = bytes;
    'frames: while !rest.is_empty() {
        let Ok(taken) = stretch.feed(rest) else {
            text.refuse();
            return;
        };
        if let Some(Found { frame, before }) = stretch.found() {
            explain_stray(text, view.form.layout, said, stretch, before);
            let octets = stretch.behind(before);
            explain_frame(text, view, alloc, said, talks, &frame, octets);
            stretch.pass_frame();
        }
        rest = &rest[taken..];
    }
    let old = stretch.old();
    if old > 0 {
        explain_stray(text, view.form.layout, said, stretch, old);
        stretch.drop_front(old);
    }
}

/// Whether a frame begins here: its flag, and the type of its format (IEC 62056-46, frame format type 3).
fn begins_frame(octets: &[u8]) -> bool {
    matches!(octets, [FLAG, 0xa0..=0xaf, ..] | [FLAG, FLAG, ..])
}

/// Shown instead of octets that are no text.
const NO_TEXT: &str = "(a line that is no text)";

/// Shown instead of lines that a dump leaves out.
const LEFT_OUT: &str = "(lines that the dump leaves out)";

/// Shown for a line whose mark no octets follow.
const NO_PAIRS: &str = "(no pairs of hexadecimal digits)";

/// A line without bytes of a frame, except for octets that may be in it.
fn pass<A: Allocator>(text: &mut Text<A>, form: Form, bytes: &[u8]) {
    let written = Written {
        raw: form.raw,
        layout: form.layout,
    };
    let line = match bytes.strip_suffix(b"\r".as_slice()) {
        Some(line) if !form.raw => line,
        _ => bytes,
    };
    begin_note(text, form.layout);
    write_echo(text, written, str::from_utf8(line).unwrap_or(NO_TEXT));
    end_note(text, form.layout);
}

impl<A: Allocator + Copy> Explainer<A> {
    /// Before the first line, without keys. No memory is taken here.
    pub fn new(alloc: A, form: Form) -> Self
        ensures raw { result.talks.raw ≡ form.raw }
        ensures form { result.view.form ≡ form }
    {
        Explainer::with_opener(alloc, form, NoKeys)
    }
}

impl<A: Allocator + Copy, O: Opener> Explainer<A, O> {
    /// Before the first line, with what opens ciphered APDUs. No memory is taken here.
    pub fn with_opener(alloc: A, form: Form, opener: O) -> Self
        ensures raw { result.talks.raw ≡ form.raw }
        ensures form { result.view.form ≡ form }
    {
        Explainer {
            alloc,
            client: Stretch::new(alloc),
            meter: Stretch::new(alloc),
            bare: Stretch::new(alloc),
            talks: Talks::new(alloc, form.raw),
            view: View::new(alloc, form, opener),
            wrapped: Messages::new(alloc, form, opener),
            dump: None,
        }
    }

    /// Bytes of this direction: the frames that end in them.
    pub(crate) fn take(&mut self, said: Option<Side>, bytes: &[u8], text: &mut Text<A>) {
        let alloc = self.alloc;
        let talks = &mut self.talks;
        let view = &mut self.view;
        match said {
            Some(Side::Client) => {
                explain_bytes(text, view, alloc, said, &mut self.client, talks, bytes);
            }
            Some(Side::Meter) => {
                explain_bytes(text, view, alloc, said, &mut self.meter, talks, bytes);
            }
            None => explain_bytes(text, view, alloc, said, &mut self.bare, talks, bytes),
        }
    }

    /// Whether a frame of this direction has begun and is not complete.
    fn is_within_frame(&self, said: Option<Side>) -> bool {
        let stretch = match said {
            Some(Side::Client) => &self.client,
            Some(Side::Meter) => &self.meter,
            None => &self.bare,
        };
        let kept = stretch.behind(0);
        (0..kept.len()).any(|at| begins_frame(kept.get(at..).unwrap_or(&[])))
    }

    /// Octets of a line: those of frames, of messages of the wrapper, or an APDU alone.
    pub(crate) fn take_line(&mut self, said: Option<Side>, octets: &[u8], text: &mut Text<A>) {
        let is_framed = begins_frame(octets) || self.is_within_frame(said);
        let stamp = self.view.stamp.as_str();
        if is_framed || !self.wrapped.take_line(said, octets, stamp, text) {
            self.take(said, octets, text);
        }
    }

    /// The words before octets, as their time: in a line of their own, or before each frame's.
    pub(crate) fn stamp(&mut self, words: &str, text: &mut Text<A>) {
        if self.view.form.layout.is_one_line() {
            self.view.stamp_with(words, text);
        } else if !words.is_empty() {
            line(text, 0, words);
        }
    }

    /// A log's own words before octets, as their time.
    fn stamp_of_log(&mut self, bytes: &[u8], text: &mut Text<A>) {
        let written = Written {
            raw: self.view.form.raw,
            layout: Layout::Full,
        };
        let words = str::from_utf8(bytes.trim_ascii()).unwrap_or(NO_TEXT);
        let mut told = Text::new(String::new(self.alloc));
        write_echo(&mut told, written, words);
        if told.check_memory().is_err() {
            text.refuse();
        }
        self.stamp(told.as_str(), text);
    }

    /// The octets of a line's pairs.
    fn pairs(&mut self, said: Option<Side>, digits: &[u8], text: &mut Text<A>) {
        match octets_of(self.alloc, digits) {
            Ok(octets) => {
                self.take_line(said, octets.as_slice(), text);
                drop(octets);
            }
            Err(_) => text.refuse(),
        }
    }

    /// The rest of the client's bytes is no frame, and a new stretch begins.
    fn end_client(&mut self, text: &mut Text<A>) {
        let layout = self.view.form.layout;
        let said = Some(Side::Client);
        explain_stray(text, layout, said, &self.client, self.client.len());
        self.client.reset();
    }

    /// Explains a line of a dump.
    fn tell_dumped(&mut self, dumped: DumpLine<'_>, text: &mut Text<A>) {
        match dumped {
            DumpLine::Octets(words, offset, digits) => {
                if self.dump.is_none() {
                    self.stamp_of_log(words, text);
                }
                self.dump = Some(offset);
                self.pairs(None, digits, text);
            }
            DumpLine::LeftOut => write_note(text, self.view.form.layout, LEFT_OUT),
            DumpLine::End => self.dump = None,
        }
    }

    /// Explains a line of another program's log, if it has octets.
    fn tell_logged(&mut self, found: Option<Logged<'_>>, text: &mut Text<A>) -> bool {
        let Some(logged) = found else {
            return false;
        };
        self.stamp_of_log(logged.words, text);
        self.pairs(logged.side, logged.run, text);
        true
    }

    /// Explains a line that has no pairs by itself: one of another program's log, or one that is passed on.
    fn tell_other(&mut self, line: &[u8], is_marked: bool, text: &mut Text<A>) {
        let form = self.view.form;
        if self.tell_logged(logged_of(line), text) {
            return;
        }
        if is_marked && !is_xml(line) {
            write_note(text, form.layout, NO_PAIRS);
        } else {
            pass(text, form, line);
        }
    }

    /// Explains a line.
    pub(crate) fn tell(&mut self, line: &[u8], text: &mut Text<A>) {
        if let Some(dumped) = dump_line(self.dump, line) {
            self.tell_dumped(dumped, text);
            return;
        }
        self.dump = None;
        if self.tell_logged(timed_of(line), text) {
            return;
        }
        match line_of(line) {
            Line::Pairs(said, digits) => {
                self.view.stamp.clear();
                self.pairs(said, digits, text);
            }
            Line::Logged(words, side, digits) => {
                self.stamp_of_log(words, text);
                self.pairs(Some(side), digits, text);
            }
            Line::Silence => {
                self.end_client(text);
                pass(text, self.view.form, line);
            }
            Line::Stop => {
                self.end_client(text);
                self.talks.reset();
                pass(text, self.view.form, line);
            }
            Line::NoPairs => self.tell_other(line, true, text),
            Line::Other => self.tell_other(line, false, text),
        }
    }

    /// Explains the bytes after the last frames.
    pub(crate) fn close(&mut self, text: &mut Text<A>) {
        let layout = self.view.form.layout;
        self.end_client(text);
        explain_stray(
            text,
            layout,
            Some(Side::Meter),
            &self.meter,
            self.meter.len(),
        );
        self.meter.reset();
        explain_stray(text, layout, None, &self.bare, self.bare.len());
        self.bare.reset();
        self.wrapped.end(text);
    }

    /// Appends to the text the explanation of bytes of this direction: of the frames that end in them.
    pub fn octets(
        &mut self,
        said: Option<Side>,
        bytes: &[u8],
        words: &mut String<A>,
    ) -> Result<(), AllocError> {
        let mut text = Text::behind(words);
        self.take(said, bytes, &mut text);
        text.end(words)
    }

    /// Appends to the text the explanation of a line, which is given without its line feed: for bytes, of the frames that end in
    /// them, with the bytes before each that are in no frame; before them the words of a log, as its time. A line without bytes is passed
    /// on as it is. If memory is refused the text may end within a line.
    pub fn line(&mut self, line: &[u8], words: &mut String<A>) -> Result<(), AllocError> {
        let mut text = Text::behind(words);
        self.tell(line, &mut text);
        text.end(words)
    }

    /// Appends to the text the explanation of the bytes after the last frames, which are in no frame. New stretches begin.
    pub fn end(&mut self, words: &mut String<A>) -> Result<(), AllocError> {
        let mut text = Text::behind(words);
        self.close(&mut text);
        text.end(words)
    }
}
