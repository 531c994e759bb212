//! Whether a page serves, and why not.

use dlms_checkpoint::BodyFault;
use dlms_journal::PageKind;
use dlms_state::Refused;
use std::fmt;

/// Whether a page serves a recovery, and why not.
#[derive(Clone, Copy, PartialEq, Eq)]
pub enum Verdict {
    /// The file ends before the page does.
    Cut,
    /// The seal is not that of the content.
    Torn,
    /// Nothing was written here since the store was made.
    Empty,
    /// The kind has no name.
    UnknownKind(u8),
    /// The version is unknown.
    UnknownVersion(u8),
    /// It is of another kind than its place.
    OtherKind(PageKind),
    /// It says another place within its kind and slot.
    OtherIndex(u16),
    /// It counts more bytes of payload than a page has.
    Overlong,
    /// It has what its place asks for, and nothing that counts refers to it.
    Unused,
    /// A closed gate.
    Closed,
    /// It counts.
    Counts,
    /// An open gate of a lesser generation than the other one.
    Older,
    /// Both gates are open and of one generation.
    SameGeneration,
    /// It belongs to another checkpoint than the one that counts.
    OtherCheckpoint(u64),
    /// It was written by another version than the gate that counts.
    OtherVersion(u8),
    /// It is no first body.
    Body(BodyFault),
    /// It is a further body of another length than the first one asks for.
    OtherLength,
    /// The bodies that begin with it are those of no state.
    NoState,
    /// Its rows are not those of the ring page that the bodies name.
    NoRows,
    /// Its payload is no whole record, or not whole records.
    NoRecords,
    /// One of its events is refused.
    Refused(Refused),
    /// Its events capture more rows than the ring takes.
    RingFull,
    /// A journal page after the end of the journal.
    Behind,
}

/// The name of a kind of page.
pub fn kind_name(kind: PageKind) -> &'static str {
    match kind {
        PageKind::Empty => "empty",
        PageKind::OpenGate => "open gate",
        PageKind::ClosedGate => "closed gate",
        PageKind::Body => "body",
        PageKind::Journal => "journal",
        PageKind::Ring => "ring",
    }
}

impl Verdict {
    /// The words of a verdict without numbers.
    fn plain(self) -> &'static str {
        match self {
            Verdict::Cut => "damaged: the file ends before it does",
            Verdict::Torn => "damaged: its seal does not match its content",
            Verdict::Empty => "empty",
            Verdict::Overlong => "does not fit: its payload is longer than a page holds",
            Verdict::Unused => "ignored",
            Verdict::Closed => "closed: its bodies may be half written",
            Verdict::Counts => "counts",
            Verdict::Older => "does not count: the other gate is of a greater generation",
            Verdict::SameGeneration => "does not count: the other gate is of the same generation",
            Verdict::OtherLength => "does not fit: the body has another length",
            Verdict::NoRows =>
                "does not fit: its rows have another length, or a clock past its range",
            Verdict::NoState => "does not fit: the bodies contain no state",
            Verdict::NoRecords => "does not fit: its payload is not whole records",
            Verdict::RingFull => "does not fit: its events capture more rows than the ring takes",
            Verdict::Behind => "after the journal's end: ignored",
            Verdict::Body(BodyFault::Length) => "does not fit: the body has another length",
            Verdict::Body(BodyFault::Counts) =>
                "does not fit: the body's counts are past their limits",
            _ => "does not fit",
        }
    }
}

impl fmt::Display for Verdict {
    fn fmt<W: fmt::Write>(&self, f: &mut fmt::Formatter<W>) -> fmt::Result {
        match self {
            Verdict::UnknownKind(number) => {
                write!(f, "does not fit: no kind has the number {number}")
            }
            Verdict::UnknownVersion(version) => {
                write!(f, "does not fit: version {version} is not known")
            }
            Verdict::OtherKind(kind) => {
                let name = kind_name(*kind);
                write!(
                    f,
                    "does not fit: a page of another kind, {name}, at this place"
                )
            }
            Verdict::OtherIndex(index) => { write!(f, "does not fit: it says index {index}") }
            Verdict::OtherCheckpoint(generation) => {
                write!(f, "does not count: it belongs to generation {generation}")
            }
            Verdict::OtherVersion(version) => {
                write!(f, "does not count: it is of version {version}")
            }
            Verdict::Refused(refused) => {
                write!(f, "does not fit: an event is refused, {refused}")
            }
            verdict => f.write_str(verdict.plain()),
        }
    }
}
