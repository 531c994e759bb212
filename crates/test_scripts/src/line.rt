//! An end of a line for tests, whose past is known: what comes at it is written down beforehand, and what happens at it is kept.
ghost use Rattle.std.specs.Prelude.{◌≡◌, [], ◌∷◌, ◌++◌, Some, map};
ghost use Rattle.test_scripts.specs.Scripts.{moment_of};

use arrayvec::ArrayVec;
use dlms_ends::meter_end::turn;
use dlms_ends::{End, HeadEnd, Heard, PIECE, PollTurn, RunFault, poll, poller};
use dlms_frame::{Client, Deframer};
use dlms_headend::{Columns, Plan, PollStep, Poller};
use dlms_loopback::Joining;
use dlms_meter::Meter;
use dlms_pages::MemoryPages;
use dlms_store::PAGES;
use std::alloc::Global;
use std::io;
use std::io::ErrorKind;
use std::process::Abort;

/// The public client's SNRM to the meter (IEC 62056-46).
pub const SNRM: [u8; 9] = [0x7e, 0xa0, 0x07, 0x03, 0x21, 0x93, 0x0f, 0x01, 0x7e];

/// The meter's UA to the public client: 128 bytes of information and one frame each way.
pub const UA: [u8; 32] = [
    0x7e, 0xa0, 0x1e, 0x21, 0x03, 0x73, 0xc3, 0x7a, 0x81, 0x80, 0x12, 0x05, 0x01, 0x80, 0x06, 0x01,
    0x80, 0x07, 0x04, 0x00, 0x00, 0x00, 0x01, 0x08, 0x04, 0x00, 0x00, 0x00, 0x01, 0x53, 0x3b, 0x7e,
];

/// The bytes or silence that arrive at an end.
#[derive(Clone, Copy)]
pub enum Play<'a> {
    /// These bytes.
    Bytes(&'a [u8]),
    /// Nothing, for as long as the end waits.
    Nothing,
}

/// A moment at an end: it was joined to another one; or bytes arrived or were sent; or, if it failed, nothing arrived, a read
/// failed, or the line broke after these.
#[derive(Drop)]
struct Happened {
    is_joining: bool,
    is_coming: bool,
    is_well: bool,
    failed: Option<io::Error>,
    bytes: Vec<u8>,
}

/// An end at which this comes; then the line breaks.
#[derive(Drop)]
pub struct Script<'a, R: Abort> {
    rt: &'a R,
    alloc: Global,
    plays: &'a [Play<'a>],
    next: usize,
    happened: Vec<Happened>,
}

impl<'a, R: Abort> Script<'a, R> {
    /// Nothing has happened.
    pub fn new(rt: &'a R, alloc: Global, plays: &'a [Play<'a>]) -> Self {
        Script {
            rt,
            alloc,
            plays,
            next: 0,
            happened: Vec::new(alloc),
        }
    }

    /// This happens.
    fn add(&mut self, happened: Happened)
        ensures { self.new.happened.items ≡ self.old.happened.items ++ happened ∷ [] }
    {
        self.happened.push(happened).expect(self.rt, "memory");
    }

    /// A copy of these bytes.
    fn copied(&self, bytes: &[u8]) -> Vec<u8>
        ensures { result.items ≡ bytes.now }
    {
        let mut copy = Vec::new(self.alloc);
        copy.extend_from_slice(bytes).expect(self.rt, "memory");
        copy
    }

    /// Whether this is what happened so many moments before the last one.
    pub fn has(&self, before: usize, is_coming: bool, is_well: bool, bytes: &[u8]) -> bool {
        match self.happened.iter().rev().nth(before) {
            Some(last) => {
                last.is_coming == is_coming
                    && last.is_well == is_well
                    && last.bytes.as_slice() == bytes
            }
            None => false,
        }
    }
}

impl<R: Abort> End for Script<'_, R> {
    ghost past = { λ s. Some (map (λ m. moment_of m.is_joining m.is_coming m.is_well m.failed m.bytes.items) s.happened.items) };

    #[tactic(auto, using(crate::proofs::Lists::map_append))]
    fn hear(&mut self, piece: &mut [u8; PIECE]) -> io::Result<Heard> {
        let play = self.plays.get(self.next).copied();
        self.next = self.next.saturating_add(1);
        match play {
            Some(Play::Bytes(bytes)) => {
                let count = bytes.len().min(PIECE);
                piece[..count].copy_from_slice(&bytes[..count]);
                let bytes = self.copied(&piece[..count]);
                self.add(Happened {
                    is_joining: false,
                    is_coming: true,
                    is_well: true,
                    failed: None,
                    bytes,
                });
                Ok(Heard::Bytes(count))
            }
            Some(Play::Nothing) => {
                let bytes = self.copied(&[]);
                self.add(Happened {
                    is_joining: false,
                    is_coming: true,
                    is_well: false,
                    failed: None,
                    bytes,
                });
                Ok(Heard::Silence)
            }
            None => {
                let error = io::Error::from(ErrorKind::UnexpectedEof);
                let bytes = self.copied(&[]);
                self.add(Happened {
                    is_joining: false,
                    is_coming: true,
                    is_well: false,
                    failed: Some(error),
                    bytes,
                });
                Err(error)
            }
        }
    }

    #[tactic(auto, using(crate::proofs::Lists::map_append))]
    fn put(&mut self, bytes: &[u8]) -> io::Result<()> {
        let bytes = self.copied(bytes);
        self.add(Happened {
            is_joining: false,
            is_coming: false,
            is_well: true,
            failed: None,
            bytes,
        });
        Ok(())
    }
}

impl<R: Abort> Joining for Script<'_, R> {
    #[tactic(auto, using(crate::proofs::Lists::map_append))]
    fn join(head: &mut Self, tail: &mut Self) -> io::Result<()> {
        let bytes = head.copied(&[]);
        head.add(Happened {
            is_joining: true,
            is_coming: false,
            is_well: true,
            failed: None,
            bytes,
        });
        let bytes = tail.copied(&[]);
        tail.add(Happened {
            is_joining: true,
            is_coming: false,
            is_well: true,
            failed: None,
            bytes,
        });
        Ok(())
    }
}

/// A SNRM that comes in two pieces is answered once it is whole, and silence ends a turn without an answer.
#[test]
fn a_meter_answers_a_frame_in_pieces(rt: HostRuntime) {
    let pages = MemoryPages::new(rt.alloc(), PAGES).expect(&rt, "memory");
    let Ok(mut meter) = Meter::format(rt.alloc(), pages) else {
        panic!(rt; "no meter");
    };
    let plays = [
        Play::Bytes(&SNRM[..4]),
        Play::Bytes(&SNRM[4..]),
        Play::Nothing,
    ];
    let mut end = Script::new(&rt, rt.alloc(), &plays);
    assert!(rt; turn(&mut end, &mut meter).is_ok());
    assert!(rt; end.happened.len() == 3);
    assert!(rt; end.has(0, false, true, &UA));
    assert!(rt; end.has(1, true, true, &SNRM[4..]));
    assert!(rt; turn(&mut end, &mut meter).is_ok());
    assert!(rt; end.has(0, true, false, &[]));
    assert!(rt; turn(&mut end, &mut meter).is_err());
    assert!(rt; end.has(0, true, false, &[]));
}

/// A head end sends SNRM, requests an association once UA has come, and requests it again if nothing comes; if the line breaks the
/// turn ends with that fault.
#[test]
fn a_head_end_repeats_what_is_out(rt: HostRuntime) {
    let plan = Plan {
        client: Client::Public,
        secret: ArrayVec::new(),
        after: None,
        until: None,
        columns: Columns::Asked,
    };
    let plays = [Play::Bytes(&UA), Play::Nothing];
    let mut end = Script::new(&rt, rt.alloc(), &plays);
    let Ok(mut head) = HeadEnd::begin(&mut end, Poller::new(rt.alloc(), plan)) else {
        panic!(rt; "no poll");
    };
    assert!(rt; end.has(0, false, true, &SNRM));
    assert!(rt; head.turn(&mut end) == Ok(PollTurn::Sent));
    assert!(rt; end.has(1, true, true, &UA));
    let asked = match end.happened.get(2) {
        Some(asked) => end.copied(asked.bytes.as_slice()),
        None => Vec::new(rt.alloc()),
    };
    assert!(rt; head.turn(&mut end) == Ok(PollTurn::Sent));
    assert!(rt; end.has(0, false, true, asked.as_slice()));
    assert!(rt; end.has(1, true, false, &[]));
    assert!(rt; head.turn(&mut end) == Err(RunFault::Io));
}

/// A meter over pages in memory, with 42 pulses and two captures.
fn captured<R: Abort>(rt: &R, alloc: Global) -> Meter<MemoryPages<Global>, Global> {
    let pages = MemoryPages::new(alloc, PAGES).expect(rt, "memory");
    let Ok(mut meter) = Meter::format(alloc, pages) else {
        panic!(rt; "no meter");
    };
    assert!(rt; meter.pulses(0, 42).is_ok());
    assert!(rt; meter.moment(900).is_ok());
    assert!(rt; meter.moment(1_800).is_ok());
    meter
}

/// Management's poll of all rows, with its first secret.
fn managements(alloc: Global) -> Poller {
    let mut secret = ArrayVec::new();
    let _fits = secret.try_extend_from_slice(b"12345678");
    poller(alloc, Client::Management, secret, None)
}

/// The frames of a poll that reach the meter, and its replies.
#[derive(Drop)]
struct Talk {
    up: Vec<Vec<u8>>,
    down: Vec<Vec<u8>>,
}

/// Appends a copy of these bytes to the others.
fn keep<R: Abort>(rt: &R, alloc: Global, frames: &mut Vec<Vec<u8>>, bytes: &[u8]) {
    let mut copy = Vec::new(alloc);
    copy.extend_from_slice(bytes).expect(rt, "memory");
    frames.push(copy).expect(rt, "memory");
}

/// The talk of a poll that is done.
fn recorded<R: Abort>(rt: &R, alloc: Global) -> Talk {
    let mut meter = captured(rt, alloc);
    let mut poller = managements(alloc);
    let mut talk = Talk {
        up: Vec::new(alloc),
        down: Vec::new(alloc),
    };
    let Some(mut frame) = poller.next() else {
        panic!(rt; "no frame");
    };
    for _ in 0..64u8 {
        let bytes = frame.put();
        keep(rt, alloc, &mut talk.up, bytes.as_slice());
        let (_, Some(reply)) = meter.feed(bytes.as_slice()) else {
            panic!(rt; "no reply");
        };
        keep(rt, alloc, &mut talk.down, reply.as_slice());
        let mut deframer = Deframer::new();
        let _taken = deframer.feed(reply.as_slice());
        let Some(answer) = deframer.frame() else {
            panic!(rt; "no frame");
        };
        match poller.on(&answer) {
            Ok(PollStep::Send(next)) => frame = next,
            Ok(PollStep::Done) => return talk,
            _ => panic!(rt; "no poll"),
        }
    }
    panic!(rt; "no end")
}

/// The frames that arrive at an end, one after another.
fn plays<'a, R: Abort>(rt: &R, alloc: Global, frames: &'a [Vec<u8>]) -> Vec<Play<'a>> {
    let mut plays = Vec::new(alloc);
    for frame in frames {
        plays
            .push(Play::Bytes(frame.as_slice()))
            .expect(rt, "memory");
    }
    plays
}

/// A poll over two ends that are joined: what came at each of them was put at the other, in the same order, and the poll has the
/// meter's rows.
#[test]
fn what_comes_was_put_at_the_other_end(rt: HostRuntime) {
    let talk = recorded(&rt, rt.alloc());
    let up = plays(&rt, rt.alloc(), talk.up.as_slice());
    let down = plays(&rt, rt.alloc(), talk.down.as_slice());
    let mut head = Script::new(&rt, rt.alloc(), down.as_slice());
    let mut tail = Script::new(&rt, rt.alloc(), up.as_slice());
    let mut meter = captured(&rt, rt.alloc());
    assert!(rt; Joining::join(&mut head, &mut tail).is_ok());
    let Ok(done) = poll(&mut head, &mut tail, &mut meter, managements(rt.alloc())) else {
        panic!(rt; "no poll");
    };
    let clocks: [u32; 2] = [900, 1_800];
    assert!(rt;
        done.rows()
            .iter()
            .map(|row| row.clock)
            .eq(clocks.iter().copied())
    );
    assert!(rt; head.happened.len() == 1 + 2 * talk.up.len());
    assert!(rt; tail.happened.len() == head.happened.len());
    for (one, other) in head.happened.iter().zip(tail.happened.iter()) {
        assert!(rt; one.bytes.as_slice() == other.bytes.as_slice());
        assert!(rt; one.is_joining == other.is_joining);
        assert!(rt; one.is_joining || one.is_coming != other.is_coming);
    }
}
