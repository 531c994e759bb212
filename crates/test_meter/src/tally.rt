//! The number of cases, and their outcomes.

use std::io;

/// The outcome of a case.
#[derive(Clone, Copy)]
pub struct Verdict {
    /// What else it is counted for.
    pub is_noted: bool,
    pub is_right: bool,
}

#[derive(Clone, Copy)]
pub struct Tally {
    pub cases: u32,
    pub noted: u32,
    pub differ: u32,
}

impl Tally {
    pub fn new() -> Tally {
        Tally {
            cases: 0,
            noted: 0,
            differ: 0,
        }
    }

    pub fn count(&mut self, verdict: Verdict) {
        if verdict.is_noted {
            self.noted = self.noted.saturating_add(1);
        }
        self.add(verdict.is_right);
    }

    /// Counts a case that is counted for nothing else.
    pub fn add(&mut self, is_right: bool) {
        self.cases = self.cases.saturating_add(1);
        if !is_right {
            self.differ = self.differ.saturating_add(1);
        }
    }
}

/// Prints a group's line, and answers how many of its cases differ.
pub fn report<R: Print>(rt: &R, what: &str, noted: &str, tally: Tally) -> io::Result<u32> {
    let Tally {
        cases,
        noted: count,
        differ,
    } = tally;
    println!(rt; "{what}: {cases} cases, {count} {noted}, {differ} differ")?;
    Ok(differ)
}
