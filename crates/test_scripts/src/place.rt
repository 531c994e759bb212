//! A place of readings and an output for tests, whose past is known: one of their calls is set to fail, and the calls are kept.
ghost use Rattle.std.specs.Prelude.{◌≡◌, [], ◌∷◌, ◌++◌, Some, None, map, if◌then◌else◌};
ghost use Rattle.dlms_ends.specs.Moments.Moment.{Went, Broke};
ghost use Rattle.test_scripts.specs.Scripts.{asked_for};

use dlms_filing::{Filing, FilingFault, Holding, Output, file_rows, keep_rows, open_rows};
use dlms_headend::{Readings, Row};
use std::alloc::Global;
use std::io;
use std::process::Abort;

/// What was asked: that a file is held, for the text, that one is laid, that it is put, or that it is taken away; the file or the
/// text, and why it failed.
#[derive(Drop)]
struct Call {
    is_held: bool,
    is_text: bool,
    is_laid: bool,
    is_put: bool,
    failed: Option<io::Error>,
    text: Vec<u8>,
}

/// A place whose call of this number, counted from 0, fails.
#[derive(Drop)]
pub struct Shelf<'a, R: Abort> {
    rt: &'a R,
    alloc: Global,
    fails: usize,
    standing: String,
    laid: String,
    calls: Vec<Call>,
}

impl<'a, R: Abort> Shelf<'a, R> {
    /// Where this text stands.
    pub fn new(rt: &'a R, alloc: Global, standing: &str, fails: usize) -> Self {
        Shelf {
            rt,
            alloc,
            fails,
            standing: String::from_str(alloc, standing).expect(rt, "memory"),
            laid: String::new(alloc),
            calls: Vec::new(alloc),
        }
    }

    /// Why the next call fails, if it does.
    fn failure(&self) -> Option<io::Error> {
        if self.calls.len() == self.fails {
            Some(io::Error::other("as it is written down"))
        } else {
            None
        }
    }

    /// This was asked.
    fn add(&mut self, call: Call)
        ensures { self.new.calls.items ≡ self.old.calls.items ++ call ∷ [] }
    {
        self.calls.push(call).expect(self.rt, "memory");
    }

    /// A copy of these bytes.
    fn copied(&self, bytes: &[u8]) -> Vec<u8>
        ensures { result.items ≡ bytes.now }
    {
        let mut copy = Vec::new(self.alloc);
        copy.extend_from_slice(bytes).expect(self.rt, "memory");
        copy
    }

    /// Whether this text is there.
    pub fn stands(&self, text: &str) -> bool {
        self.standing.as_str() == text
    }

    /// Whether these were the calls after the first one: a text was laid, and put or taken away, or it was not, and the outcome of
    /// the last of them.
    fn has(&self, count: usize, text: &str, is_put: bool, is_well: bool) -> bool {
        let is_laid = match self.calls.get(0) {
            Some(call) => call.is_laid && call.text.as_slice() == text.as_bytes(),
            None => false,
        };
        let is_ended = match self.calls.last() {
            Some(call) => call.is_put == is_put && call.failed.is_none() == is_well,
            None => false,
        };
        is_laid && is_ended && self.calls.len() == count
    }
}

impl<R: Abort> Holding for Shelf<'_, R> {
    #[tactic(auto, using(crate::proofs::Lists::map_append))]
    fn hold(&mut self, file: &str) -> io::Result<()> {
        let failed = self.failure();
        let text = self.copied(file.as_bytes());
        self.add(Call {
            is_held: true,
            is_text: false,
            is_laid: false,
            is_put: false,
            failed,
            text,
        });
        match failed {
            None => Ok(()),
            Some(error) => Err(error),
        }
    }
}

impl<R: Abort> Filing for Shelf<'_, R> {
    ghost asked = { λ s. Some (map (λ c. asked_for c.is_held c.is_text c.is_laid c.is_put c.failed c.text.items) s.calls.items) };

    #[tactic(auto, using(crate::proofs::Lists::map_append))]
    fn text(&mut self, alloc: Global) -> io::Result<String> {
        let failed = self.failure();
        let text = self.copied(self.standing.as_bytes());
        let standing = String::from_str(alloc, self.standing.as_str()).expect(self.rt, "memory");
        self.add(Call {
            is_held: false,
            is_text: true,
            is_laid: false,
            is_put: false,
            failed,
            text,
        });
        match failed {
            None => Ok(standing),
            Some(error) => Err(error),
        }
    }

    #[tactic(auto, using(crate::proofs::Lists::map_append))]
    fn lay(&mut self, text: &str) -> io::Result<()> {
        let failed = self.failure();
        let copy = self.copied(text.as_bytes());
        self.laid = String::from_str(self.alloc, text).expect(self.rt, "memory");
        self.add(Call {
            is_held: false,
            is_text: false,
            is_laid: true,
            is_put: false,
            failed,
            text: copy,
        });
        match failed {
            None => Ok(()),
            Some(error) => Err(error),
        }
    }

    #[tactic(auto, using(crate::proofs::Lists::map_append))]
    fn put(&mut self) -> io::Result<()> {
        let failed = self.failure();
        let text = self.copied(&[]);
        if failed.is_none() {
            self.standing = String::from_str(self.alloc, self.laid.as_str()).expect(
                self.rt, "memory",
            );
        }
        self.add(Call {
            is_held: false,
            is_text: false,
            is_laid: false,
            is_put: true,
            failed,
            text,
        });
        match failed {
            None => Ok(()),
            Some(error) => Err(error),
        }
    }

    #[tactic(auto, using(crate::proofs::Lists::map_append))]
    fn drop_laid(&mut self) {
        let text = self.copied(&[]);
        self.add(Call {
            is_held: false,
            is_text: false,
            is_laid: false,
            is_put: false,
            failed: None,
            text,
        });
    }
}

/// The bytes sent to an output, or that it failed after these.
#[derive(Drop)]
struct Print {
    is_well: bool,
    bytes: Vec<u8>,
}

/// An output that takes what is printed, or fails before any of it.
#[derive(Drop)]
pub struct Sheet<'a, R: Abort> {
    rt: &'a R,
    alloc: Global,
    is_well: bool,
    /// Whether all that was printed was flushed.
    is_flushed: bool,
    prints: Vec<Print>,
}

impl<'a, R: Abort> Sheet<'a, R> {
    /// Nothing was printed.
    pub fn new(rt: &'a R, alloc: Global, is_well: bool) -> Self {
        Sheet {
            rt,
            alloc,
            is_well,
            is_flushed: true,
            prints: Vec::new(alloc),
        }
    }

    /// Whether these bytes alone were printed, and flushed.
    pub fn has(&self, bytes: &[u8]) -> bool {
        match self.prints.as_slice() {
            [print] => self.is_flushed && print.is_well && print.bytes.as_slice() == bytes,
            _ => false,
        }
    }
}

impl<R: Abort> Output for Sheet<'_, R> {
    ghost printed = { λ s. record {
      moments = Some (map (λ p. if p.is_well then (Went p.bytes.items) else (Broke p.bytes.items)) s.prints.items);
      flushed = if s.is_flushed then Some (map (λ p. if p.is_well then (Went p.bytes.items) else (Broke p.bytes.items)) s.prints.items) else None;
      bytes = None;
    } };

    #[tactic(auto, using(crate::proofs::Lists::map_append))]
    fn write_out(&mut self, bytes: &[u8]) -> io::Result<()> {
        self.is_flushed = false;
        let is_well = self.is_well;
        let mut copy = Vec::new(self.alloc);
        if is_well {
            copy.extend_from_slice(bytes).expect(self.rt, "memory");
        }
        self.prints
            .push(Print {
                is_well,
                bytes: copy,
            })
            .expect(self.rt, "memory");
        if is_well {
            Ok(())
        } else {
            Err(io::Error::other("no output"))
        }
    }

    fn flush_out(&mut self) -> io::Result<()> {
        self.is_flushed = true;
        Ok(())
    }
}

/// The text that is there in the tests, and that of the row that is filed after it (docs/READINGS.md).
const OLD: &str = "900,42,0,0\n";

const BOTH: &str = "900,42,0,0\n1800,43,0,7\n";

/// The row that is filed, after one that is there.
const ROWS: [Row; 2] = [
    Row {
        clock: 900,
        registers: [42, 0, 0],
    },
    Row {
        clock: 1_800,
        registers: [43, 0, 7],
    },
];

/// Readings with the old row.
fn opened<R: Abort>(rt: &R, alloc: Global) -> Readings {
    let mut shelf = Shelf::new(rt, alloc, OLD, usize::MAX);
    match open_rows(alloc, &mut shelf) {
        Ok(readings) => readings,
        Err(_) => panic!(rt; "no readings"),
    }
}

/// A text of readings at a place is opened, and a call that fails is reported.
#[test]
fn readings_are_opened(rt: HostRuntime) {
    assert!(rt; opened(&rt, rt.alloc()).rows() == &ROWS[..1]);
    let mut broken = Shelf::new(&rt, rt.alloc(), OLD, 0);
    assert!(rt; open_rows(rt.alloc(), &mut broken).is_err());
}

/// The new rows are there, and were printed before; if a call fails the earlier text stays.
#[test]
fn rows_are_filed(rt: HostRuntime) {
    for (fails, count, is_put, is_well) in [
        (usize::MAX, 2, true, true),
        (0, 1, false, false),
        (1, 2, true, false),
    ] {
        let mut readings = opened(&rt, rt.alloc());
        let mut shelf = Shelf::new(&rt, rt.alloc(), OLD, fails);
        let mut sheet = Sheet::new(&rt, rt.alloc(), true);
        let filed = file_rows(&mut shelf, &mut readings, &ROWS, &mut sheet);
        assert!(rt; filed.is_ok() == is_well);
        assert!(rt; shelf.has(count, BOTH, is_put, is_well));
        assert!(rt; sheet.has(b"1800,43,0,7\n") == is_put);
        assert!(rt; shelf.stands(if is_well { BOTH } else { OLD }));
    }
}

/// Where the output fails, the text that was laid is taken away again, and the old one stands.
#[test]
fn an_output_fails(rt: HostRuntime) {
    let mut readings = opened(&rt, rt.alloc());
    let mut shelf = Shelf::new(&rt, rt.alloc(), OLD, usize::MAX);
    let mut sheet = Sheet::new(&rt, rt.alloc(), false);
    let filed = file_rows(&mut shelf, &mut readings, &ROWS, &mut sheet);
    assert!(rt; matches!(filed, Err(FilingFault::Output)));
    assert!(rt; shelf.has(2, BOTH, false, true));
    assert!(rt; shelf.stands(OLD));
}

/// Rows that are kept without printing are there too.
#[test]
fn rows_are_kept(rt: HostRuntime) {
    let mut readings = opened(&rt, rt.alloc());
    let mut shelf = Shelf::new(&rt, rt.alloc(), OLD, usize::MAX);
    assert!(rt; keep_rows(&mut shelf, &mut readings, &ROWS).is_ok());
    assert!(rt; shelf.has(2, BOTH, true, true));
    assert!(rt; shelf.stands(BOTH));
}
