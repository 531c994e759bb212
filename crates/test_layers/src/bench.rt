//! What plays a scenario: a crate's calls, on values that stay from one line to the next.

use crate::fault::RowFault;
use crate::scenario::Line;
use crate::words::Words;
use linked_list_allocator::LocalHeap;

/// The memory of a scenario. Prepared values are in `ample`, and the rows under test take their memory from `heap`; both are the
/// same if the scenario names no sizes.
#[derive(Clone, Copy)]
pub struct Room<'h> {
    pub ample: &'h LocalHeap,
    pub heap: &'h LocalHeap,
}

/// A crate's calls.
pub trait Bench: Drop {
    /// Makes the call that a line names, and writes its answer.
    fn step(&mut self, words: &mut Words<'_>, answer: &mut String) -> Result<(), RowFault>;
}

/// Plays the lines, and writes the answer to each, a line for a line. A line that is not understood is answered `?`, and
/// one that works on what was not made `none`.
pub fn play<B: Bench>(
    mut bench: B,
    lines: &[Line<'_>],
    answers: &mut String,
) -> Result<(), RowFault> {
    for line in lines {
        let mut words = Words::new(*answers.allocator(), line.call);
        match bench.step(&mut words, answers) {
            Ok(()) => {}
            Err(RowFault::Form) => answers.push_str("?")?,
            Err(RowFault::Missing) => answers.push_str("none")?,
            Err(RowFault::Memory) => return Err(RowFault::Memory),
        }
        answers.push('\n')?;
    }
    Ok(())
}
