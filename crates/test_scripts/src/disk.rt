//! Files for tests, of which one call fails, and whose calls are kept.
ghost use Rattle.std.specs.Prelude.{◌≡◌, [], ◌∷◌, ◌++◌, Some, map, string_bytes};
ghost use Rattle.test_scripts.specs.Scripts.{file_call};

use dlms_filing::{Disk, FilePlace, Filing, Holding};
use std::alloc::Global;
use std::io;
use std::process::Abort;

/// A call, by its number, in the order in which a readings file is filed: a file is found, locked, read; one is created beside it,
/// written, synced, renamed; the folder is synced; and last, one is removed. What it was given, and why it failed.
#[derive(Drop)]
struct Call {
    number: u8,
    first: Vec<u8>,
    second: Vec<u8>,
    is_there: bool,
    failed: Option<io::Error>,
}

/// Files of which the call of this number fails.
#[derive(Drop)]
struct Cabinet<'a, R: Abort> {
    rt: &'a R,
    alloc: Global,
    fails: u8,
    calls: Vec<Call>,
}

impl<'a, R: Abort> Cabinet<'a, R> {
    /// Nothing was called.
    fn new(rt: &'a R, alloc: Global, fails: u8) -> Self {
        Cabinet {
            rt,
            alloc,
            fails,
            calls: Vec::new(alloc),
        }
    }

    /// A copy of these bytes.
    fn copied(&self, bytes: &[u8]) -> Vec<u8>
        ensures { result.items ≡ bytes.now }
    {
        let mut copy = Vec::new(self.alloc);
        copy.extend_from_slice(bytes).expect(self.rt, "memory");
        copy
    }

    /// Why the call of this number fails, if it does.
    fn failure(&self, number: u8) -> Option<io::Error> {
        if number == self.fails {
            Some(io::Error::other("as it is written down"))
        } else {
            None
        }
    }

    /// This was called.
    fn add(&mut self, call: Call)
        ensures { self.new.calls.items ≡ self.old.calls.items ++ call ∷ [] }
    {
        self.calls.push(call).expect(self.rt, "memory");
    }

    /// A text that is given back.
    fn text_of(&self, text: &str) -> String
        ensures { string_bytes result ≡ text.now }
    {
        String::from_str(self.alloc, text).expect(self.rt, "memory")
    }

    /// Whether these were the calls, and no others.
    fn has(&self, numbers: &[u8]) -> bool {
        self.calls.len() == numbers.len()
            && self
                .calls
                .iter()
                .zip(numbers.iter())
                .all(|(call, number)| call.number == *number)
    }
}

/// The path at the end of the links, the text there, and the path of the file beside it.
const PATH: &str = "/rows.csv";

const TEXT: &str = "900,42,0,0\n";

const BESIDE: &str = "/rows.csv.1.new";

impl<R: Abort> Disk for Cabinet<'_, R> {
    ghost made = { λ s. Some (map (λ c. file_call c.number c.first.items c.second.items c.is_there c.failed) s.calls.items) };

    #[tactic(auto, using(crate::proofs::Lists::map_append))]
    fn find(&mut self, name: &str) -> io::Result<String> {
        let failed = self.failure(0);
        let first = self.copied(name.as_bytes());
        let second = self.copied(PATH.as_bytes());
        self.add(Call {
            number: 0,
            first,
            second,
            is_there: false,
            failed,
        });
        match failed {
            None => Ok(self.text_of(PATH)),
            Some(error) => Err(error),
        }
    }

    #[tactic(auto, using(crate::proofs::Lists::map_append))]
    fn lock(&mut self, path: &str) -> io::Result<()> {
        let failed = self.failure(1);
        let first = self.copied(path.as_bytes());
        let second = self.copied(&[]);
        self.add(Call {
            number: 1,
            first,
            second,
            is_there: false,
            failed,
        });
        match failed {
            None => Ok(()),
            Some(error) => Err(error),
        }
    }

    #[tactic(auto, using(crate::proofs::Lists::map_append))]
    fn read(&mut self, _alloc: Global, path: &str) -> io::Result<Option<String>> {
        let failed = self.failure(2);
        let first = self.copied(path.as_bytes());
        let second = self.copied(TEXT.as_bytes());
        self.add(Call {
            number: 2,
            first,
            second,
            is_there: true,
            failed,
        });
        match failed {
            None => Ok(Some(self.text_of(TEXT))),
            Some(error) => Err(error),
        }
    }

    #[tactic(auto, using(crate::proofs::Lists::map_append))]
    fn create(&mut self, path: &str) -> io::Result<String> {
        let failed = self.failure(3);
        let first = self.copied(path.as_bytes());
        let second = self.copied(BESIDE.as_bytes());
        self.add(Call {
            number: 3,
            first,
            second,
            is_there: false,
            failed,
        });
        match failed {
            None => Ok(self.text_of(BESIDE)),
            Some(error) => Err(error),
        }
    }

    #[tactic(auto, using(crate::proofs::Lists::map_append))]
    fn write(&mut self, path: &str, text: &str) -> io::Result<()> {
        let failed = self.failure(4);
        let first = self.copied(path.as_bytes());
        let second = self.copied(text.as_bytes());
        self.add(Call {
            number: 4,
            first,
            second,
            is_there: false,
            failed,
        });
        match failed {
            None => Ok(()),
            Some(error) => Err(error),
        }
    }

    #[tactic(auto, using(crate::proofs::Lists::map_append))]
    fn sync(&mut self, path: &str) -> io::Result<()> {
        let failed = self.failure(5);
        let first = self.copied(path.as_bytes());
        let second = self.copied(&[]);
        self.add(Call {
            number: 5,
            first,
            second,
            is_there: false,
            failed,
        });
        match failed {
            None => Ok(()),
            Some(error) => Err(error),
        }
    }

    #[tactic(auto, using(crate::proofs::Lists::map_append))]
    fn rename(&mut self, from: &str, to: &str) -> io::Result<()> {
        let failed = self.failure(6);
        let first = self.copied(from.as_bytes());
        let second = self.copied(to.as_bytes());
        self.add(Call {
            number: 6,
            first,
            second,
            is_there: false,
            failed,
        });
        match failed {
            None => Ok(()),
            Some(error) => Err(error),
        }
    }

    #[tactic(auto, using(crate::proofs::Lists::map_append))]
    fn sync_folder(&mut self, path: &str) -> io::Result<()> {
        let failed = self.failure(7);
        let first = self.copied(path.as_bytes());
        let second = self.copied(&[]);
        self.add(Call {
            number: 7,
            first,
            second,
            is_there: false,
            failed,
        });
        match failed {
            None => Ok(()),
            Some(error) => Err(error),
        }
    }

    #[tactic(auto, using(crate::proofs::Lists::map_append))]
    fn remove(&mut self, path: &str) {
        let first = self.copied(path.as_bytes());
        let second = self.copied(&[]);
        self.add(Call {
            number: 8,
            first,
            second,
            is_there: false,
            failed: None,
        });
    }
}

/// Files a text in a place over these files, as far as that goes.
fn file<D: Disk>(place: &mut FilePlace<D>, alloc: Global) -> io::Result<()> {
    place.hold("rows.csv")?;
    let _text = place.text(alloc)?;
    place.lay("900,42,0,0\n1800,43,0,7\n")?;
    place.put()
}

/// A file is found, locked and read; the new one is created, written and synced before it takes its place, and then the folder is
/// synced. If a call fails none comes after it, except that a new file that does not take its place is removed.
#[test]
fn files_are_called_in_order(rt: HostRuntime) {
    let expected: [(u8, &[u8]); 9] = [
        (0, &[0]),
        (1, &[0, 1]),
        (2, &[0, 1, 2]),
        (3, &[0, 1, 2, 3]),
        (4, &[0, 1, 2, 3, 4, 8]),
        (5, &[0, 1, 2, 3, 4, 5, 8]),
        (6, &[0, 1, 2, 3, 4, 5, 6, 8]),
        (7, &[0, 1, 2, 3, 4, 5, 6, 7]),
        (9, &[0, 1, 2, 3, 4, 5, 6, 7]),
    ];
    for (fails, numbers) in expected {
        let mut place = FilePlace::new(Cabinet::new(&rt, rt.alloc(), fails));
        let filed = file(&mut place, rt.alloc());
        assert!(rt; filed.is_ok() == (fails == 9));
        assert!(rt; place.disk().has(numbers));
    }
}
