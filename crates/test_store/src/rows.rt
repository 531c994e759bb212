//! Rows go round the ring: a store that is closed and opened again after each hundred of them.

use crate::report::Report;
use crate::stores::{MemoryStore, reopen};
use anyhow::Result;
use dlms_pages::MemoryPages;
use dlms_state::Event;
use dlms_store::{PAGES, Store};

/// How often a hundred rows are captured.
const ROUNDS: u32 = 13;

/// How many rows are kept.
const KEPT: u32 = 960;

/// Counts a pulse and captures a row, a hundred times: the row numbered n has n + 1 in its first register. Whether all were taken.
fn round(store: &mut MemoryStore) -> bool {
    for _ in 0..100 {
        if store.add(Event::Pulses(0, 1)).is_err() || store.add(Event::Capture).is_err() {
            return false;
        }
    }
    true
}

/// The last rows are kept, each as it was captured.
fn compare_rows(report: &mut Report<'_>, store: &MemoryStore, captured: u32) {
    let first = captured.saturating_sub(KEPT);
    let state = store.state();
    report.compare((captured, "first"), state.first_number(), u128::from(first));
    report.compare(
        (captured, "next"),
        state.next_number(),
        u128::from(captured),
    );
    let mut wanted = first;
    let mut differing = 0u32;
    for row in state.rows().iter() {
        wanted = wanted.saturating_add(1);
        if row.values.as_slice().get(1..) != Some([wanted, 0, 0].as_slice()) {
            differing = differing.saturating_add(1);
        }
    }
    report.compare((captured, "behind"), wanted, captured);
    report.compare((captured, "rows"), differing, 0);
}

/// Rows in the store that the last round left, up to so many, and the store opened again. Whether there was one.
fn play_round(report: &mut Report<'_>, store: &mut Option<MemoryStore>, captured: u32) -> bool {
    let Some(here) = store else {
        report.compare(captured.saturating_sub(100), "no store", "a store");
        return false;
    };
    report.compare(captured, round(here), true);
    reopen(report.alloc(), store);
    if let Some(again) = store {
        compare_rows(report, again, captured);
    }
    true
}

/// The rounds, up to one that finds no store.
fn play_rounds(report: &mut Report<'_>, store: &mut Option<MemoryStore>) {
    let mut captured = 0u32;
    for _ in 0..ROUNDS {
        captured = captured.saturating_add(100);
        if !play_round(report, store, captured) {
            return;
        }
    }
}

/// The rounds, each on the store that the last one left.
pub fn play_rows(report: &mut Report<'_>) -> Result<()> {
    let alloc = report.alloc();
    report.begin("rounds of rows");
    let mut store = Store::format(alloc, MemoryPages::new(alloc, PAGES)?).ok();
    play_rounds(report, &mut store);
    drop(store);
    report.end();
    Ok(())
}
