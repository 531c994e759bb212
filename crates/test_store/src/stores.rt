//! Stores: the scripts, and the texts of the faults.

use crate::bytes::Bytes;
use crate::columns::COLUMNS;
use crate::report::Report;
use crate::scripts::{Look, OnDevice, OnStore, SCRIPTS, Step};
use crate::stops::Left;
use crate::versions::VERSIONS;
use anyhow::Result;
use arrayvec::ArrayVec;
use dlms_pages::{MemoryPages, PageRead, Pages};
use dlms_state::{Event, Refused};
use dlms_store::{AddFault, OpenFault, Store};
use std::alloc::Global;
use std::io;
use std::mem::replace;

/// A store over pages in memory.
pub type MemoryStore = Store<MemoryPages>;

/// Closes a store, and opens it again; None is left if it does not open.
pub fn reopen(alloc: Global, store: &mut Option<MemoryStore>) {
    if let Some(here) = store.take() {
        drop(replace(store, Store::open(alloc, here.close()).ok()));
    }
}

/// Adds so many events of one pulse each, up to the first that is not taken. How many were taken.
fn taken(store: &mut MemoryStore, count: u32) -> u32 {
    for place in 0..count {
        if store.add(Event::Pulses(0, 1)).is_err() {
            return place;
        }
    }
    count
}

/// Captures rows, up to the first that is not accepted. Returns how many were accepted.
fn captured(store: &mut MemoryStore, count: u32) -> u32 {
    for place in 0..count {
        if store.add(Event::Capture).is_err() {
            return place;
        }
    }
    count
}

/// Sets the columns.
fn sets_columns(store: &mut MemoryStore, columns: &[u8]) -> std::result::Result<(), AddFault> {
    let mut ids = ArrayVec::new();
    let _fits = ids.try_extend_from_slice(columns);
    store.add(Event::SetColumns(ids))
}

/// Whether the row at an index has these values.
fn has_row(store: &MemoryStore, index: usize, values: &[u32]) -> bool {
    match store.state().rows().get(index) {
        Some(row) => row.values.as_slice() == values,
        None => false,
    }
}

/// The number of the oldest row, and the one that the next row gets.
fn numbers(store: &MemoryStore) -> (u128, u128) {
    (store.state().first_number(), store.state().next_number())
}

/// The first so many of some values.
fn first<T>(count: usize, values: &[T]) -> &[T] {
    values.get(..count).unwrap_or(values)
}

/// Where the scripts of a group stand: the number of the script, and that of the step.
type Place = (u32, u32);

/// Takes a step on a store.
fn play_on_store(report: &mut Report<'_>, place: Place, store: &mut MemoryStore, step: OnStore) {
    match step {
        OnStore::Pulses(count) => report.compare(place, taken(store, count), count),
        OnStore::Adds(channel, pulses, answer) => {
            report.compare(place, store.add(Event::Pulses(channel, pulses)), answer)
        }
        OnStore::Captures(count) => report.compare(place, captured(store, count), count),
        OnStore::Empties => report.compare(place, store.add(Event::ResetProfile), Ok(())),
        OnStore::Commits(answer) => report.compare(place, store.commit(), answer),
        OnStore::Checkpoints(answer) => report.compare(place, store.checkpoint(), answer),
        OnStore::SetsColumns(count, ids, answer) => {
            report.compare(place, sets_columns(store, first(count, &ids)), answer)
        }
    }
}

/// Looks at a store.
fn play_look(report: &mut Report<'_>, place: Place, store: &MemoryStore, look: Look) {
    match look {
        Look::Pending(bytes) => report.compare(place, store.pending(), bytes),
        Look::Registers(registers) => report.compare(place, store.state().registers(), registers),
        Look::Numbers(oldest, next) => report.compare(place, numbers(store), (oldest, next)),
        Look::Columns(count, ids) => {
            let is_same = store.state().columns() == first(count, &ids);
            report.compare(place, is_same, true)
        }
        Look::Row(index, count, values) => {
            report.compare(place, has_row(store, index, first(count, &values)), true)
        }
    }
}

/// The content of a page; None if it is damaged, or cannot be read.
fn content_of(device: &mut MemoryPages, index: u16) -> Option<[u8; 512]> {
    if device.count() <= index {
        return None;
    }
    match device.read(index) {
        Ok(PageRead::Content(bytes)) => Some(bytes),
        _ => None,
    }
}

/// Whether a page begins with these bytes.
fn begins(device: &mut MemoryPages, index: u16, front: &[u8]) -> bool {
    match content_of(device, index) {
        Some(bytes) => bytes.starts_with(front),
        None => false,
    }
}

/// Whether a page has these bytes from this place on, and zeros after them.
fn ends(device: &mut MemoryPages, index: u16, place: usize, part: &[u8]) -> bool {
    let Some(bytes) = content_of(device, index) else {
        return false;
    };
    match bytes.get(place..) {
        Some(rest) => {
            rest.starts_with(part) && rest.iter().skip(part.len()).all(|byte| *byte == 0)
        }
        None => false,
    }
}

/// Writes a page with these bytes at the front and zeros after them, and returns whether that succeeded.
fn puts(device: &mut MemoryPages, index: u16, front: &[u8]) -> bool {
    let mut content = [0; 512];
    for (byte, value) in content.iter_mut().zip(front.iter()) {
        *byte = *value;
    }
    index < device.count() && device.write(index, &content).is_ok()
}

/// The content of the head of a page with index 0.
#[derive(Clone, Copy)]
struct Head {
    kind: u8,
    version: u8,
    generation: u8,
    length: u16,
}

/// Writes a page of this head and payload, and says whether that passed.
fn writes(device: &mut MemoryPages, index: u16, head: Head, payload: &[u8]) -> bool {
    let [high, low] = head.length.to_be_bytes();
    let front = [
        [head.kind, head.version, 0, 0],
        [0; 4],
        [0, 0, 0, head.generation],
        [high, low, 0, 0],
    ];
    let mut content = [0; 512];
    let bytes = front.as_flattened().iter().chain(payload.iter());
    for (byte, value) in content.iter_mut().zip(bytes) {
        *byte = *value;
    }
    index < device.count() && device.write(index, &content).is_ok()
}

/// Changes a byte of a page, and says whether that passed.
fn changes(device: &mut MemoryPages, index: u16, place: usize, byte: u8) -> bool {
    let Some(mut content) = content_of(device, index) else {
        return false;
    };
    match content.get_mut(place) {
        Some(old) => *old = byte,
        None => return false,
    }
    index < device.count() && device.write(index, &content).is_ok()
}

/// Where the journal begins.
const JOURNAL: u16 = 6;

/// Writes a page of any version, and says whether that passed; nothing else is done.
fn becomes(device: &mut MemoryPages, step: OnDevice) -> bool {
    let (index, kind, version, generation, payload) = match step {
        OnDevice::Gate(index, version, generation) => {
            (index, 1, version, generation, Bytes::Nothing)
        }
        OnDevice::Body(index, generation, front) => (index, 3, 1, generation, front),
        OnDevice::Journal(version, generation, records) => {
            (JOURNAL, 4, version, generation, records)
        }
        _ => return false,
    };
    let payload = payload.of();
    let length = match u16::try_from(payload.len()) {
        Ok(length) if kind != 3 => length,
        _ => 302,
    };
    let head = Head {
        kind,
        version,
        generation,
        length,
    };
    writes(device, index, head, payload)
}

/// Whether a step on a device comes out as it is to.
fn is_taken(device: &mut MemoryPages, step: OnDevice) -> bool {
    match step {
        OnDevice::Clears(index) => puts(device, index, &[]),
        OnDevice::Puts(index, front) => puts(device, index, front.of()),
        OnDevice::Begins(index, front) => begins(device, index, front.of()),
        OnDevice::Changes(index, at, byte) => changes(device, index, at, byte),
        OnDevice::Ends(index, from, part) => ends(device, index, from, part.of()),
        OnDevice::Holds(index, front) => ends(device, index, 0, front.of()),
        OnDevice::Gate(..) | OnDevice::Body(..) | OnDevice::Journal(..) => becomes(device, step),
    }
}

/// The subject of a script.
#[derive(Drop)]
enum Subject {
    Nothing,
    Device(MemoryPages),
    Store(MemoryStore),
}

/// Has a script go on with this.
fn put(subject: &mut Subject, next: Subject) {
    drop(replace(subject, next));
}

/// Takes the device that no store has; nothing is left to work on.
fn device_in(subject: &mut Subject) -> Option<MemoryPages> {
    match replace(subject, Subject::Nothing) {
        Subject::Device(device) => Some(device),
        Subject::Store(store) => {
            drop(store);
            None
        }
        Subject::Nothing => None,
    }
}

/// Takes the store; nothing is left to work on.
fn store_in(subject: &mut Subject) -> Option<MemoryStore> {
    match replace(subject, Subject::Nothing) {
        Subject::Store(store) => Some(store),
        Subject::Device(device) => {
            drop(device);
            None
        }
        Subject::Nothing => None,
    }
}

/// The outcome of a format or a recovery: the store, or the device and why there is none.
fn keep(
    subject: &mut Subject,
    made: std::result::Result<MemoryStore, (MemoryPages, OpenFault)>,
) -> Option<OpenFault> {
    match made {
        Ok(store) => {
            put(subject, Subject::Store(store));
            None
        }
        Err((device, fault)) => {
            put(subject, Subject::Device(device));
            Some(fault)
        }
    }
}

/// A step that finds nothing to work on comes out otherwise.
fn play_nothing(report: &mut Report<'_>, place: Place) {
    report.compare(place, "nothing", "something");
}

/// Formats a device that no store has.
fn play_format(
    report: &mut Report<'_>,
    place: Place,
    subject: &mut Subject,
    fault: Option<OpenFault>,
) {
    let Some(device) = device_in(subject) else {
        return play_nothing(report, place);
    };
    let found = keep(subject, Store::format(report.alloc(), device));
    report.compare(place, found, fault);
}

/// Opens a device that no store has.
fn play_open(
    report: &mut Report<'_>,
    place: Place,
    subject: &mut Subject,
    fault: Option<OpenFault>,
) {
    let Some(device) = device_in(subject) else {
        return play_nothing(report, place);
    };
    let found = keep(subject, Store::open(report.alloc(), device));
    report.compare(place, found, fault);
}

/// Stops the power of a device that no store has.
fn play_stop(report: &mut Report<'_>, place: Place, subject: &mut Subject, left: Left) {
    let Some(device) = device_in(subject) else {
        return play_nothing(report, place);
    };
    put(subject, Subject::Device(device.cut(left.pick())));
}

/// Closes a store.
fn play_close(report: &mut Report<'_>, place: Place, subject: &mut Subject) {
    let Some(store) = store_in(subject) else {
        return play_nothing(report, place);
    };
    put(subject, Subject::Device(store.close()));
}

/// Begins a script with a new device.
fn play_device(report: &mut Report<'_>, subject: &mut Subject, pages: u16) -> io::Result<()> {
    let device = MemoryPages::new(report.alloc(), pages)?;
    put(subject, Subject::Device(device));
    Ok(())
}

/// Takes a step on a store.
fn play_at_store(report: &mut Report<'_>, place: Place, subject: &mut Subject, step: OnStore) {
    match subject {
        Subject::Store(store) => play_on_store(report, place, store, step),
        Subject::Device(_) | Subject::Nothing => play_nothing(report, place),
    }
}

/// Looks at a store.
fn play_look_at(report: &mut Report<'_>, place: Place, subject: &Subject, look: Look) {
    match subject {
        Subject::Store(store) => play_look(report, place, store, look),
        Subject::Device(_) | Subject::Nothing => play_nothing(report, place),
    }
}

/// Takes a step on a device that no store has.
fn play_at_device(report: &mut Report<'_>, place: Place, subject: &mut Subject, step: OnDevice) {
    match subject {
        Subject::Device(device) => report.compare(place, is_taken(device, step), true),
        Subject::Store(_) | Subject::Nothing => play_nothing(report, place),
    }
}

/// Has each call of a device that no store has fail after so many.
fn play_fuse(report: &mut Report<'_>, place: Place, subject: &mut Subject, calls: u64) {
    match subject {
        Subject::Device(device) => device.fuse(calls),
        Subject::Store(_) | Subject::Nothing => play_nothing(report, place),
    }
}

/// Takes a step, and leaves what the next one works on.
fn play_step(
    report: &mut Report<'_>,
    place: Place,
    subject: &mut Subject,
    step: Step,
) -> io::Result<()> {
    match step {
        Step::Device(pages) => return play_device(report, subject, pages),
        Step::Fails(calls) => play_fuse(report, place, subject, calls),
        Step::Formats(fault) => play_format(report, place, subject, fault),
        Step::Opens(fault) => play_open(report, place, subject, fault),
        Step::Closes => play_close(report, place, subject),
        Step::Stops(left) => play_stop(report, place, subject, left),
        Step::Store(step) => play_at_store(report, place, subject, step),
        Step::Shows(look) => play_look_at(report, place, subject, look),
        Step::At(step) => play_at_device(report, place, subject, step),
    }
    Ok(())
}

/// The place of the next step.
fn next_place((script, number): Place, step: &Step) -> Place {
    match step {
        Step::Device(_) => (script.saturating_add(1), 0),
        _ => (script, number.saturating_add(1)),
    }
}

/// Takes the steps of scripts, one after another.
fn play_steps(report: &mut Report<'_>, subject: &mut Subject, steps: &[Step]) -> io::Result<()> {
    let mut place = (0u32, 0u32);
    for step in steps {
        place = next_place(place, step);
        play_step(report, place, subject, *step)?;
    }
    Ok(())
}

/// The scripts of a group.
fn play_group(report: &mut Report<'_>, group: &'static str, steps: &[Step]) -> io::Result<()> {
    report.begin(group);
    let mut subject = Subject::Nothing;
    let played = play_steps(report, &mut subject, steps);
    drop(subject);
    report.end();
    played
}

/// The scripts of any store.
pub fn play_scripts(report: &mut Report<'_>) -> Result<()> {
    Ok(play_group(report, "stores", &SCRIPTS)?)
}

/// The scripts of columns that are set.
pub fn play_columns(report: &mut Report<'_>) -> Result<()> {
    Ok(play_group(report, "columns", &COLUMNS)?)
}

/// The scripts of pages of several versions.
pub fn play_versions(report: &mut Report<'_>) -> Result<()> {
    Ok(play_group(report, "versions", &VERSIONS)?)
}

/// How a fault at an event is shown.
static TEXTS: [(AddFault, &str); 7] = [
    (AddFault::Refused(Refused::MomentBack(900)), "refused 1"),
    (AddFault::Refused(Refused::Range), "refused 2"),
    (AddFault::Refused(Refused::Channel), "refused 3"),
    (AddFault::Refused(Refused::Period), "refused 4"),
    (AddFault::Refused(Refused::Length), "refused 5"),
    (AddFault::Refused(Refused::Columns), "refused 6"),
    (AddFault::Exhausted, "exhausted"),
];

/// Whether a fault is shown so.
fn is_told(alloc: Global, fault: &AddFault, text: &str) -> Result<bool> {
    let told = format!(in alloc; "{fault}")?;
    Ok(told.as_str() == text)
}

/// Faults are shown by name and number.
pub fn play_texts(report: &mut Report<'_>) -> Result<()> {
    report.begin("texts of faults");
    for (fault, text) in &TEXTS {
        let is_told = is_told(report.alloc(), fault, text)?;
        report.compare(*text, is_told, true);
    }
    report.end();
    Ok(())
}
