//! The last numbers of rows: those of 64 bits are used, and none after them.

use crate::report::Report;
use crate::stores::{MemoryStore, reopen};
use anyhow::Result;
use arrayvec::ArrayVec;
use dlms_checkpoint::checkpoint_of;
use dlms_journal::{PageKind, page_of};
use dlms_pages::{MemoryPages, Pages};
use dlms_state::{Event, Parts, SecretOf, State};
use dlms_store::{AddFault, PAGES, Store};
use std::alloc::{AllocError, Global};

/// The last number of a row.
const LAST: u128 = 18_446_744_073_709_551_615;

/// One above it.
const END: u128 = LAST + 1;

/// Bytes in place, which fit.
fn held<const MOST: usize>(bytes: &[u8]) -> ArrayVec<u8, MOST> {
    let mut held = ArrayVec::new();
    let _fits = held.try_extend_from_slice(bytes);
    held
}

/// A state of an empty profile whose first row gets the last number.
fn at_the_end(alloc: Global) -> Option<State> {
    let new: State = State::new(alloc).ok()?;
    let parts = Parts {
        registers: [0, 0, 0],
        last: 0,
        offset: 0,
        period: 900,
        text: ArrayVec::new(),
        secret: held(new.secret(SecretOf::Management)),
        reader_secret: held(new.secret(SecretOf::Reader)),
        columns: held(new.columns()),
    };
    drop(new);
    State::restore(alloc, parts, LAST).ok()
}

/// Writes a state's checkpoint into the first slot of an empty device, with generation 1.
fn write_slot(device: &mut MemoryPages, state: &State) -> Option<()> {
    let checkpoint = checkpoint_of(state);
    for index in 0..checkpoint.body_count() {
        let page = page_of(PageKind::Body, index, 1, checkpoint.body(index));
        if device.count() <= index.saturating_add(1) {
            return None;
        }
        device.write(index + 1, &page).ok()?;
    }
    if device.count() == 0 {
        return None;
    }
    device
        .write(0, &page_of(PageKind::OpenGate, 0, 1, &[]))
        .ok()
}

/// Writes the checkpoint of that state so.
fn write_end(alloc: Global, device: &mut MemoryPages) -> Option<()> {
    let state = at_the_end(alloc)?;
    let written = write_slot(device, &state);
    drop(state);
    written
}

/// A store that was opened with it.
fn opened(alloc: Global) -> std::result::Result<Option<MemoryStore>, AllocError> {
    let mut device = MemoryPages::new(alloc, PAGES)?;
    if write_end(alloc, &mut device).is_none() {
        drop(device);
        return Ok(None);
    }
    Ok(Store::open(alloc, device).ok())
}

/// The number of the oldest row, and the one that the next row gets.
fn numbers(store: &MemoryStore) -> (u128, u128) {
    (store.state().first_number(), store.state().next_number())
}

/// The last row is accepted; after it an event that captures a row changes nothing, while others are accepted.
fn play_captures(report: &mut Report<'_>, store: &mut MemoryStore) {
    report.compare("opened", numbers(store), (LAST, LAST));
    report.compare("the last row", store.add(Event::Capture), Ok(()));
    report.compare("its number", numbers(store), (LAST, END));
    let exhausted = Err(AddFault::Exhausted);
    report.compare("a capture", store.add(Event::Capture), exhausted);
    report.compare("a period", store.add(Event::Moment(900)), exhausted);
    report.compare(
        "nothing changed",
        (store.pending(), store.state().last()),
        (1, 0),
    );
    report.compare("a pulse", store.add(Event::Pulses(0, 7)), Ok(()));
    report.compare("a moment", store.add(Event::Moment(899)), Ok(()));
    report.compare("a checkpoint", store.checkpoint(), Ok(()));
}

/// Opened again the numbers are the same.
fn play_again(report: &mut Report<'_>, store: &mut MemoryStore) {
    report.compare("opened again", numbers(store), (LAST, END));
    report.compare("its register", store.state().registers(), [7, 0, 0]);
    report.compare("emptied", store.add(Event::ResetProfile), Ok(()));
    report.compare("a second checkpoint", store.checkpoint(), Ok(()));
}

/// An emptied profile has none left.
fn play_empty(report: &mut Report<'_>, store: &mut MemoryStore) {
    report.compare("opened empty", numbers(store), (END, END));
    report.compare("a row", store.add(Event::Capture), Err(AddFault::Exhausted));
}

/// The last row, and the store opened again twice.
fn play_store(report: &mut Report<'_>, store: &mut Option<MemoryStore>) {
    let Some(made) = store else {
        return report.compare("made", "a fault", "a store");
    };
    play_captures(report, made);
    reopen(report.alloc(), store);
    let Some(again) = store else {
        return report.compare("opened again", "a fault", "a store");
    };
    play_again(report, again);
    reopen(report.alloc(), store);
    match store {
        Some(empty) => play_empty(report, empty),
        None => report.compare("opened empty", "a fault", "a store"),
    }
}

/// The last numbers, one after another.
pub fn play_last(report: &mut Report<'_>) -> Result<()> {
    report.begin("last numbers");
    let mut store = opened(report.alloc())?;
    play_store(report, &mut store);
    drop(store);
    report.end();
    Ok(())
}
