//! What can be seen of a meter's state.

use dlms_meter::Meter;
use dlms_pages::Pages;
use std::alloc::Allocator;

/// What can be seen of a state: each event of a scenario changes it.
#[derive(Clone, Copy, PartialEq, Eq)]
pub struct Seen {
    pub registers: [u32; 3],
    pub clock: u32,
    pub period: u32,
    pub rows: usize,
    /// The number of the next row.
    pub next: u128,
    pub text_len: usize,
    pub text: Option<u8>,
}

pub fn seen_in<P: Pages, A: Allocator + Copy>(meter: &Meter<P, A>) -> Seen {
    let state = meter.state();
    Seen {
        registers: state.registers(),
        clock: state.clock(),
        period: state.period(),
        rows: state.rows().len(),
        next: state.next_number(),
        text_len: state.text().len(),
        text: state.text().first().copied(),
    }
}
