//! What was compared, and how often it came out otherwise.

use std::alloc::Global;
use std::fmt::Debug;

/// The cases of a group, and whether any of an earlier group came out otherwise than it is to.
#[derive(Drop)]
pub struct Report<'r> {
    rt: &'r HostRuntime,
    group: &'static str,
    cases: u32,
    differing: u32,
    is_clean: bool,
}

impl<'r> Report<'r> {
    /// Nothing was compared yet.
    pub fn new(rt: &'r HostRuntime) -> Report<'r> {
        Report {
            rt,
            group: "",
            cases: 0,
            differing: 0,
            is_clean: true,
        }
    }

    /// Where memory comes from.
    pub fn alloc(&self) -> Global {
        self.rt.alloc()
    }

    /// The system that the program was given.
    pub fn rt(&self) -> &'r HostRuntime {
        self.rt
    }

    /// The cases from here on are of this group.
    pub fn begin(&mut self, group: &'static str) {
        self.group = group;
        self.cases = 0;
        self.differing = 0;
    }

    /// One more case of the group. If it differs it is named, with the actual and the expected result; that it cannot be printed is
    /// ignored, since it is counted.
    pub fn compare<C: Debug + Drop, T: PartialEq + Debug + Drop>(
        &mut self,
        case: C,
        found: T,
        expected: T,
    ) {
        self.cases = self.cases.saturating_add(1);
        let is_same = found == expected;
        if !is_same {
            self.differing = self.differing.saturating_add(1);
            let _printed = println!(self.rt;
                "{}, {case:?}: {found:?}, not {expected:?}",
                self.group
            );
        }
    }

    /// Says how many cases the group had, and how many of them differ. If that cannot be printed, the run is not clean.
    pub fn end(&mut self) {
        let printed = println!(self.rt;
            "{}: {} cases, {} differ",
            self.group, self.cases, self.differing
        );
        self.is_clean = self.is_clean && self.differing == 0 && printed.is_ok();
    }

    /// Whether no case of a group that ended came out otherwise.
    pub fn is_clean(&self) -> bool {
        self.is_clean
    }
}
