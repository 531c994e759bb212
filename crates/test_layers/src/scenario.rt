//! Scenarios: lines that are played one after another, up to an empty line.

use crate::fault::RowFault;
use crate::sizes::{Heaps, Sizes};
use crate::words::Words;
use std::alloc::Global;
use std::str::Lines;

/// A line: the words of a call, and its answer. Where no answer is written the call is to answer nothing.
#[derive(Clone, Copy)]
pub struct Line<'t> {
    pub number: u32,
    pub call: &'t str,
    pub wanted: Option<&'t str>,
}

/// Reads a text scenario by scenario.
#[derive(Drop)]
pub struct Reader<'t> {
    alloc: Global,
    lines: Lines<'t>,
    number: u32,
}

/// The call and the answer of a line.
fn line_of(number: u32, text: &str) -> Line<'_> {
    match text.split_once("->") {
        Some((call, wanted)) => Line {
            number,
            call,
            wanted: Some(wanted.trim()),
        },
        None => Line {
            number,
            call: text,
            wanted: None,
        },
    }
}

impl<'t> Reader<'t> {
    pub fn new(alloc: Global, text: &'t str) -> Self {
        Reader {
            alloc,
            lines: text.lines(),
            number: 0,
        }
    }

    /// The heaps of a line that says so.
    fn heaps_of(&self, text: &str) -> Result<Option<Heaps>, RowFault> {
        match text.strip_prefix("heaps ") {
            None => Ok(None),
            Some(sizes) => {
                let mut words = Words::new(self.alloc, sizes);
                Ok(Some(Heaps::Each(Sizes::read(&mut words)?)))
            }
        }
    }

    /// Replaces `lines` by the lines of the next scenario, and returns the heaps on which it is played; none after the last.
    pub fn next_scenario(&mut self, lines: &mut Vec<Line<'t>>) -> Result<Option<Heaps>, RowFault> {
        lines.clear();
        let mut heaps = Heaps::Ample;
        'lines: for _ in 0..u32::MAX {
            let Some(text) = self.lines.next() else {
                break 'lines;
            };
            self.number = self.number.saturating_add(1);
            if text.is_empty() && !lines.is_empty() {
                return Ok(Some(heaps));
            }
            if text.is_empty() || text.starts_with("#") {
                continue 'lines;
            }
            match self.heaps_of(text)? {
                Some(named) => heaps = named,
                None => lines.push(line_of(self.number, text))?,
            }
        }
        if lines.is_empty() {
            return Ok(None);
        }
        Ok(Some(heaps))
    }
}
