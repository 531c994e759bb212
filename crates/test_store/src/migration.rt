//! Images of version 1, which another program wrote: a recovery makes version 2 of them, wherever it is stopped.
//!
//! `data/NAME.v1.bin` is a file of pages: 62 slots of a page and its seal. What the meter holds is worked out from the lines
//! that the other program was given: a pulse on each channel in turn, or a moment for each period of 900 seconds.

use crate::report::Report;
use crate::stops::{LEFT, Left};
use crate::stores::MemoryStore;
use anyhow::Result;
use dlms_pages::{MemoryPages, PAGE_BYTES, Pages, Pick};
use dlms_state::SecretOf;
use dlms_store::{OpenFault, PAGES, Store};
use std::alloc::{AllocError, Global};
use std::{fs, io};

/// How many bytes a page and its seal have in a file.
const SLOT: usize = 544;

/// An image, and what a recovery finds in it.
#[derive(Clone, Copy)]
struct Image {
    file: &'static str,
    /// The page that is torn before the recovery.
    torn: Option<u16>,
    registers: [u32; 3],
    /// The number of the oldest row, and the one that the next row gets.
    first: u32,
    next: u32,
    /// The number of device calls that the recovery makes, and of the next one.
    calls: u64,
    again: u64,
}

/// A line of the table of images.
type Line = (&'static str, Option<u16>, [u32; 3], [u32; 2], [u64; 2]);

/// The images. A recovery of version 1 is a sync, two gates, the body, the ring pages that it names, the journal up to the first page
/// that does not fit, that journal's first page once more; and then a gate, a body and a gate with a sync each.
static IMAGES: [Line; 10] = [
    ("empty.v1.bin", None, [0, 0, 0], [0, 0], [12, 5]),
    ("p42.v1.bin", None, [42, 0, 0], [0, 0], [13, 5]),
    ("p42.v1.bin", Some(6), [0, 0, 0], [0, 0], [12, 5]),
    ("pulses83.v1.bin", None, [28, 28, 27], [0, 0], [14, 5]),
    ("pulses83.v1.bin", Some(7), [28, 27, 27], [0, 0], [13, 5]),
    ("pulses1395.v1.bin", None, [465, 465, 465], [0, 0], [13, 5]),
    ("rows31.v1.bin", None, [0, 0, 0], [0, 31], [13, 6]),
    ("rows241.v1.bin", None, [0, 0, 0], [0, 241], [20, 13]),
    ("rows961.v1.bin", None, [0, 0, 0], [1, 961], [44, 37]),
    ("hundreds.v1.bin", None, [0, 0, 0], [340, 1300], [44, 37]),
];

/// The image of a line.
fn image_of((file, torn, registers, [first, next], [calls, again]): Line) -> Image {
    Image {
        file,
        torn,
        registers,
        first,
        next,
        calls,
        again,
    }
}

/// Writes the pages of a file, as far as they are there, and has them settle.
fn fill(device: &mut MemoryPages, bytes: &[u8]) -> bool {
    let mut index = 0u16;
    for slot in bytes.chunks(SLOT) {
        let mut content = [0; PAGE_BYTES];
        for (byte, value) in content.iter_mut().zip(slot.iter()) {
            *byte = *value;
        }
        if device.count() <= index || device.write(index, &content).is_err() {
            return false;
        }
        index = index.saturating_add(1);
    }
    device.sync().is_ok()
}

/// The device of an image.
fn device_of(alloc: Global, image: &Image, bytes: &[u8]) -> Result<MemoryPages, AllocError> {
    let mut device = MemoryPages::new(alloc, PAGES)?;
    let _filled = fill(&mut device, bytes);
    let Some(torn) = image.torn else {
        return Ok(device);
    };
    if torn < device.count() {
        let _written = device.write(torn, &[0; PAGE_BYTES]);
    }
    Ok(device.cut(Pick::AllDamaged))
}

/// Whether a row is that of its number: row n is captured at the end of period n + 1, with no pulse.
fn is_row(number: u32, values: &[u32]) -> bool {
    let clock = number.saturating_add(1).saturating_mul(900);
    values == [clock, 0, 0, 0].as_slice()
}

/// Whether the rows are those of these numbers.
fn has_rows(store: &MemoryStore, image: &Image) -> bool {
    let state = store.state();
    let mut number = image.first;
    for row in state.rows().iter() {
        if !is_row(number, row.values.as_slice()) {
            return false;
        }
        number = number.saturating_add(1);
    }
    number == image.next
        && state.first_number() == u128::from(image.first)
        && state.next_number() == u128::from(image.next)
}

/// Whether a store holds what the image holds, and the first columns and the first secrets.
fn is_as_before(store: &MemoryStore, image: &Image) -> bool {
    let state = store.state();
    state.registers() == image.registers
        && (state.last(), state.offset()) == (image.next.saturating_mul(900), 0)
        && state.period() == 900
        && state.text().is_empty()
        && state.secret(SecretOf::Management) == b"12345678".as_slice()
        && state.secret(SecretOf::Reader) == b"23456789".as_slice()
        && state.columns() == [0, 1, 2, 3].as_slice()
        && store.pending() == 0
        && has_rows(store, image)
}

/// Why a recovery came to nothing, if it did, and the device.
fn recovered(
    alloc: Global,
    device: MemoryPages,
    image: &Image,
) -> (Option<OpenFault>, bool, MemoryPages) {
    match Store::open(alloc, device) {
        Ok(store) => {
            let is_same = is_as_before(&store, image);
            (None, is_same, store.close())
        }
        Err((device, fault)) => (Some(fault), false, device),
    }
}

/// The outcome of a recovery, and whether the store holds what the image holds.
type Recovery = (Option<OpenFault>, bool);

/// The outcome of a recovery, and of the next one, with or without a stop between them.
fn recovered_twice(
    alloc: Global,
    device: MemoryPages,
    image: &Image,
    left: Option<Left>,
) -> (Option<OpenFault>, Recovery) {
    let (first, _, device) = recovered(alloc, device, image);
    let device = match left {
        Some(left) => device.cut(left.pick()),
        None => device,
    };
    let (second, is_same, device) = recovered(alloc, device, image);
    drop(device);
    (first, (second, is_same))
}

/// What three recoveries come to, of which the second has the calls that it needs, and the third one less.
fn recovered_thrice(alloc: Global, device: MemoryPages, image: &Image) -> [Recovery; 3] {
    let (first, is_first_same, mut device) = recovered(alloc, device, image);
    device.fuse(image.again);
    let (second, is_second_same, mut device) = recovered(alloc, device, image);
    device.fuse(image.again.saturating_sub(1));
    let (third, is_third_same, device) = recovered(alloc, device, image);
    drop(device);
    [
        (first, is_first_same),
        (second, is_second_same),
        (third, is_third_same),
    ]
}

/// Why a recovery comes to nothing whose device fails from a call on.
fn fault_behind(calls: u64, image: &Image) -> Option<OpenFault> {
    if calls < image.calls {
        Some(OpenFault::Device)
    } else {
        None
    }
}

/// The power stops after each call, and after none, and leaves this: the next recovery finds what was there.
fn play_left(
    report: &mut Report<'_>,
    image: &Image,
    bytes: &[u8],
    left: Left,
) -> Result<(), AllocError> {
    let alloc = report.alloc();
    for calls in 0..=image.calls {
        let mut device = device_of(alloc, image, bytes)?;
        device.fuse(calls);
        let case = (image.file, image.torn, left, calls);
        let (fault, again) = recovered_twice(alloc, device, image, Some(left));
        report.compare(case, fault, fault_behind(calls, image));
        report.compare(case, again, (None, true));
    }
    Ok(())
}

/// The power stops, and leaves each.
fn play_stops(report: &mut Report<'_>, image: &Image, bytes: &[u8]) -> Result<(), AllocError> {
    for left in &LEFT {
        play_left(report, image, bytes, *left)?;
    }
    Ok(())
}

/// Each call of the recovery fails alone: that is reported, and the next recovery finds what was there.
fn play_failures(report: &mut Report<'_>, image: &Image, bytes: &[u8]) -> Result<(), AllocError> {
    let alloc = report.alloc();
    for calls in 0..image.calls {
        let mut device = device_of(alloc, image, bytes)?;
        device.fail_once(calls);
        let case = (image.file, image.torn, calls);
        let (fault, again) = recovered_twice(alloc, device, image, None);
        report.compare(case, fault, Some(OpenFault::Device));
        report.compare(case, again, (None, true));
    }
    Ok(())
}

/// What was migrated is looked at by the next recovery, and not written again: it makes no more calls than it has to read. Where the
/// journal's first page is damaged it stays so, and each recovery makes a checkpoint.
fn play_again(report: &mut Report<'_>, image: &Image, bytes: &[u8]) -> Result<(), AllocError> {
    let alloc = report.alloc();
    let device = device_of(alloc, image, bytes)?;
    let [first, (fault, is_same), (last, _)] = recovered_thrice(alloc, device, image);
    let case = (image.file, image.torn, image.again);
    report.compare(case, first, (None, true));
    let is_healed = image.torn != Some(6);
    report.compare(case, (fault.is_none(), is_same), (is_healed, is_healed));
    report.compare(case, last, Some(OpenFault::Device));
    Ok(())
}

/// Plays an image of these bytes.
fn play_bytes(report: &mut Report<'_>, image: &Image, bytes: &[u8]) -> Result<(), AllocError> {
    report.compare(image.file, bytes.len(), usize::from(PAGES) * SLOT);
    play_stops(report, image, bytes)?;
    play_failures(report, image, bytes)?;
    play_again(report, image, bytes)
}

/// Plays an image.
fn play_image(report: &mut Report<'_>, image: &Image) -> Result<()> {
    let bytes = fs::read(report.rt(), image.file)?;
    let played = play_bytes(report, image, &bytes);
    drop(bytes);
    Ok(played?)
}

/// The images, one after another.
pub fn play_images(report: &mut Report<'_>) -> Result<()> {
    report.begin("images of version 1");
    for line in &IMAGES {
        play_image(report, &image_of(*line))?;
    }
    report.end();
    Ok(())
}
