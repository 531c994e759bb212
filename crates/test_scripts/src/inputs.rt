//! Clocks, files of secrets and a line to a meter for tests, whose past is known.

ghost use Rattle.std.specs.Prelude.{◌≡◌, [], ◌∷◌, ◌++◌, Some, map};
ghost use Rattle.test_scripts.specs.Scripts.{sight_of, wire_moment};

use crate::noted::{Noted, are_numbered};
use crate::place::{Sheet, Shelf};
use arrayvec::ArrayVec;
use dlms_ends::{End, Heard, PIECE};
use dlms_frame::Client;
use dlms_identity::Expected;
use dlms_lines::{Dialling, FieldFault, Timer};
use dlms_meter::Meter;
use dlms_pages::MemoryPages;
use dlms_polling::{MOST_READ, NoGuards, PollInputs, PollSetup, Polling, poll};
use dlms_store::PAGES;
use std::alloc::Global;
use std::io;
use std::process::Abort;

/// A steady clock on which a second goes by at each look, a clock of the day that stands, and one file with this secret. The
/// call of this number fails.
#[derive(Drop)]
struct Table<'a, R: Abort> {
    rt: &'a R,
    alloc: Global,
    secret: &'a [u8],
    fails: u8,
    second: u64,
    noted: Vec<Noted>,
}

impl<'a, R: Abort> Table<'a, R> {
    /// Nothing was asked.
    fn new(rt: &'a R, alloc: Global, secret: &'a [u8], fails: u8) -> Self {
        Table {
            rt,
            alloc,
            secret,
            fails,
            second: 0,
            noted: Vec::new(alloc),
        }
    }

    /// Why the call of this number fails, if it does.
    fn failure(&self, number: u8) -> Option<io::Error> {
        if number == self.fails {
            Some(io::Error::other("as it is written down"))
        } else {
            None
        }
    }

    /// This was asked.
    fn note(&mut self, noted: Noted)
        ensures { self.new.noted.items ≡ self.old.noted.items ++ noted ∷ [] }
    {
        self.noted.push(noted).expect(self.rt, "memory");
    }

    /// A copy of these bytes.
    fn copied(&self, bytes: &[u8]) -> Vec<u8>
        ensures { result.items ≡ bytes.now }
    {
        let mut copy = Vec::new(self.alloc);
        copy.extend_from_slice(bytes).expect(self.rt, "memory");
        copy
    }
}

/// The second of the clock of the day: 2000-01-01 01:00:00.
const DAY: u64 = 946_688_400;

impl<R: Abort> Timer for Table<'_, R> {
    ghost seen = { λ s. Some (map (λ n. sight_of n.number n.second n.is_so n.failed n.address n.file.items n.bytes.items) s.noted.items) };

    #[tactic(auto, using(crate::proofs::Lists::map_append))]
    fn seconds(&mut self) -> io::Result<u64> {
        let second = self.second;
        let is_so = self.fails != 0;
        self.second = second.saturating_add(1);
        self.note(Noted::of(self.alloc, 0, second, is_so, None));
        if is_so {
            Ok(second)
        } else {
            Err(io::Error::other("no clock"))
        }
    }
}

impl<R: Abort> PollInputs for Table<'_, R> {
    #[tactic(auto, using(crate::proofs::Lists::map_append))]
    fn start(&mut self) -> io::Result<()> {
        let failed = self.failure(6);
        self.note(Noted::of(self.alloc, 6, 0, true, failed));
        match failed {
            None => Ok(()),
            Some(error) => Err(error),
        }
    }

    #[tactic(auto, using(crate::proofs::Lists::map_append))]
    fn pause(&mut self) {
        self.note(Noted::of(self.alloc, 5, 0, true, None));
    }

    #[tactic(auto, using(crate::proofs::Lists::map_append))]
    fn date(&mut self) -> io::Result<u64> {
        let failed = self.failure(7);
        self.note(Noted::of(self.alloc, 7, DAY, true, failed));
        match failed {
            None => Ok(DAY),
            Some(error) => Err(error),
        }
    }

    #[tactic(auto, using(crate::proofs::Lists::map_append))]
    fn secret(&mut self, file: &str) -> io::Result<ArrayVec<u8, MOST_READ>> {
        let failed = self.failure(8);
        let mut secret = ArrayVec::new();
        let _fits = secret.try_extend_from_slice(self.secret);
        let file = self.copied(file.as_bytes());
        let bytes = self.copied(secret.as_slice());
        let mut noted = Noted::of(self.alloc, 8, 0, true, failed);
        noted.file = file;
        noted.bytes = bytes;
        self.note(noted);
        match failed {
            None => Ok(secret),
            Some(error) => Err(error),
        }
    }
}

/// What happened at a line, by its number: it was connected (0); bytes came (1), none did (2), or some went out (3).
#[derive(Drop)]
struct Happened {
    number: u8,
    is_so: bool,
    bytes: Vec<u8>,
}

/// A line to a meter that answers at once, or that is not connected in time.
#[derive(Drop)]
struct Wire<'a, R: Abort> {
    rt: &'a R,
    alloc: Global,
    is_there: bool,
    meter: Meter<MemoryPages<Global>, Global>,
    coming: Vec<u8>,
    happened: Vec<Happened>,
}

impl<'a, R: Abort> Wire<'a, R> {
    /// To a new meter with two captures.
    fn new(rt: &'a R, alloc: Global, is_there: bool) -> Self {
        let pages = MemoryPages::new(alloc, PAGES).expect(rt, "memory");
        let Ok(mut meter) = Meter::format(alloc, pages) else {
            panic!(*rt; "no meter");
        };
        let _counted = meter.pulses(0, 42);
        let _first = meter.moment(900);
        let _second = meter.moment(1_800);
        Wire {
            rt,
            alloc,
            is_there,
            meter,
            coming: Vec::new(alloc),
            happened: Vec::new(alloc),
        }
    }

    /// This happened.
    fn add(&mut self, happened: Happened)
        ensures { self.new.happened.items ≡ self.old.happened.items ++ happened ∷ [] }
    {
        self.happened.push(happened).expect(self.rt, "memory");
    }

    /// A copy of these bytes.
    fn copied(&self, bytes: &[u8]) -> Vec<u8>
        ensures { result.items ≡ bytes.now }
    {
        let mut copy = Vec::new(self.alloc);
        copy.extend_from_slice(bytes).expect(self.rt, "memory");
        copy
    }

    /// The meter answers a frame.
    fn answer(&mut self, bytes: &[u8])
        ensures { self.new.happened ≡ self.old.happened }
    {
        let (_, reply) = self.meter.feed(bytes);
        if let Some(reply) = reply {
            self.coming
                .extend_from_slice(reply.as_slice())
                .expect(self.rt, "memory");
        }
    }
}

impl<R: Abort> End for Wire<'_, R> {
    ghost past = { λ s. Some (map (λ h. wire_moment h.number h.is_so h.bytes.items) s.happened.items) };

    #[tactic(auto, using(crate::proofs::Lists::map_append))]
    fn hear(&mut self, piece: &mut [u8; PIECE]) -> io::Result<Heard> {
        let count = self.coming.len().min(PIECE);
        if count == 0 {
            let bytes = self.copied(&[]);
            self.add(Happened {
                number: 2,
                is_so: true,
                bytes,
            });
            return Ok(Heard::Silence);
        }
        piece[..count].copy_from_slice(&self.coming.as_slice()[..count]);
        self.coming = self.copied(&self.coming.as_slice()[count..]);
        let bytes = self.copied(&piece[..count]);
        self.add(Happened {
            number: 1,
            is_so: true,
            bytes,
        });
        Ok(Heard::Bytes(count))
    }

    #[tactic(auto, using(crate::proofs::Lists::map_append))]
    fn put(&mut self, bytes: &[u8]) -> io::Result<()> {
        self.answer(bytes);
        let bytes = self.copied(bytes);
        self.add(Happened {
            number: 3,
            is_so: true,
            bytes,
        });
        Ok(())
    }
}

impl<R: Abort> Dialling for Wire<'_, R> {
    #[tactic(auto, using(crate::proofs::Lists::map_append))]
    fn connect(&mut self, address: &str, _seconds: u32) -> io::Result<bool> {
        let is_so = self.is_there;
        let bytes = self.copied(address.as_bytes());
        self.add(Happened {
            number: 0,
            is_so,
            bytes,
        });
        Ok(is_so)
    }

    fn failure(&self) -> Option<io::Error> {
        None
    }
}

/// The outcome of a poll.
#[derive(Clone, Copy, PartialEq, Eq)]
enum Came {
    Rows,
    Late,
    OfSystem,
    Stranger,
    Elsewhere,
}

/// A poll of a meter that shows the expected name is done, and its rows are filed and printed; or it shows another one, or a call
/// failed, and nothing is.
#[test]
fn a_meter_is_polled(rt: HostRuntime) {
    for (fails, is_there, text, came) in [
        (9, true, "RTL0000000000001", Came::Rows),
        (9, true, "RTL0000000000005", Came::Stranger),
        (9, false, "RTL0000000000001", Came::Late),
        (0, true, "RTL0000000000001", Came::Elsewhere),
        (6, true, "RTL0000000000001", Came::OfSystem),
        (7, true, "RTL0000000000001", Came::Elsewhere),
        (8, true, "RTL0000000000001", Came::OfSystem),
    ] {
        let expected = [Expected {
            name: [0, 0, 42, 0, 0, 255],
            text,
        }];
        let polling = Polling {
            address: "meter:4059",
            route: None,
            readings: Some("rows.csv"),
            secret_file: Some("secret"),
            client: Client::Management,
            deadline: 600,
            retries: 2,
            until: None,
            ahead: Some(60),
            strict: false,
            expected: &expected,
            is_protected: false,
        };
        let mut setup = PollSetup {
            inputs: Table::new(&rt, rt.alloc(), b"12345678\n", fails),
            guards: NoGuards,
            place: Shelf::new(&rt, rt.alloc(), "", usize::MAX),
            line: Wire::new(&rt, rt.alloc(), is_there),
        };
        let mut sheet = Sheet::new(&rt, rt.alloc(), true);
        let mut errors = Sheet::new(&rt, rt.alloc(), true);
        let polled = match poll(rt.alloc(), &mut setup, &polling, &mut sheet, &mut errors) {
            Ok(()) => Came::Rows,
            Err(FieldFault::Late("meter:4059", 600)) => Came::Late,
            Err(FieldFault::System(_, _)) => Came::OfSystem,
            Err(FieldFault::Stranger(_, _)) => Came::Stranger,
            Err(_) => Came::Elsewhere,
        };
        assert!(rt; polled == came);
        assert!(rt; setup.place.stands(FILED) == (came == Came::Rows));
        assert!(rt; sheet.has(FILED.as_bytes()) == (came == Came::Rows));
        assert!(rt; setup.line.happened.is_empty() == (fails >= 6 && fails < 9));
    }
}

/// The rows of the meter, as a readings file has them (docs/READINGS.md).
const FILED: &str = "900,42,0,0\n1800,42,0,0\n";
