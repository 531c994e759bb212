//! Pages in real files: their bytes, what damages them, the lock, and calls of the file that fail.

use crate::asked::{Ask, Came, asked, get, play};
use crate::damages::{DAMAGES, Damage, SLOT, damaged};
use crate::faulty::{Faulty, FaultyFiles, Since};
use crate::report::Report;
use anyhow::Result;
use dlms_pages::{FilePages, FileSlots, PageRead, Pages};
use std::alloc::{AllocError, Global};
use std::env::temp_dir;
use std::io::ErrorKind;
use std::{fs, io, process};

/// The SHA-256 of 514 zeros, by another program.
const SEAL_OF_ZEROS: [u8; 32] = [
    0xb6, 0x6c, 0x1d, 0xf6, 0x18, 0x41, 0x35, 0x64, 0xae, 0x90, 0xbc, 0xa8, 0x23, 0x1b, 0xdb, 0xb4,
    0xb9, 0xd7, 0x19, 0x5d, 0x5e, 0x39, 0xce, 0xcd, 0xd1, 0xb7, 0x61, 0x3d, 0xbb, 0x64, 0xe7, 0x1d,
];

/// The SHA-256 of 01 02 and the bytes k modulo 251 for k from 0 to 511, by another program.
const SEAL_OF_PAGE_258: [u8; 32] = [
    0x7d, 0x70, 0xbf, 0x4e, 0xf0, 0x3a, 0x65, 0x0b, 0x88, 0x0f, 0x08, 0xdb, 0xad, 0x57, 0xfb, 0x55,
    0x56, 0x09, 0x6a, 0x82, 0x81, 0x35, 0x18, 0xcb, 0x25, 0xba, 0x7d, 0x6b, 0xa5, 0x08, 0xce, 0x33,
];

/// The path of a file of this run's own, in the folder for temporary files.
fn path_of(rt: &HostRuntime, name: &str) -> Result<String> {
    let folder = temp_dir(rt)?;
    let id = process::id(rt.process());
    let path = format!(in rt.alloc(); "{}/test_store-{id}-{name}", folder.as_str());
    drop(folder);
    Ok(path?)
}

/// Whether these bytes stand from this place on.
fn stands_at(bytes: &[u8], place: usize, part: &[u8]) -> bool {
    match bytes.get(place..) {
        Some(rest) => rest.starts_with(part),
        None => false,
    }
}

/// What three pages read as when the file is opened again.
fn reads(rt: &HostRuntime, path: &str) -> io::Result<[Came; 3]> {
    let mut device: FilePages = FilePages::open(rt, path, 3)?;
    let pages = [
        get(&mut device, 0),
        get(&mut device, 1),
        get(&mut device, 2),
    ];
    drop(device);
    Ok(pages)
}

/// The three pages read so when the file is opened again.
fn play_reads(
    report: &mut Report<'_>,
    case: &'static str,
    path: &str,
    pages: [Came; 3],
) -> io::Result<()> {
    let found = reads(report.rt(), path)?;
    report.compare(case, found, pages);
    Ok(())
}

/// What is looked at in the bytes of a file.
#[derive(Clone, Copy, Debug)]
enum Look {
    /// A file of three pages has its length.
    Length,
    /// Its first page is of zeros.
    Zeros,
    SealOfZeros,
    /// Its third page is of nines.
    Nines,
    /// Page 258 stands at its place.
    Page258,
    SealOfPage258,
}

/// Whether that is in the bytes as it is to be.
fn is_there(bytes: &[u8], look: Look) -> bool {
    match look {
        Look::Length => bytes.len() == 1632,
        Look::Zeros => stands_at(bytes, 0, &[0; 512]),
        Look::SealOfZeros => stands_at(bytes, 512, &SEAL_OF_ZEROS),
        Look::Nines => stands_at(bytes, 1088, &[9; 512]),
        Look::Page258 => stands_at(bytes, PLACE, &counting()),
        Look::SealOfPage258 => stands_at(bytes, PLACE + 512, &SEAL_OF_PAGE_258),
    }
}

/// Looks at the bytes of a file.
fn play_looks(report: &mut Report<'_>, path: &str, looks: &[Look]) -> io::Result<()> {
    let bytes = fs::read(report.rt(), path)?;
    for look in looks {
        report.compare(*look, is_there(&bytes, *look), true);
    }
    Ok(())
}

/// The calls of a new file of three pages.
const CALLS: [(Ask, Came); 8] = [
    (Ask::Count, Came::Number(3)),
    (Ask::Get(0), Came::Damaged),
    (Ask::Put(0, 0), Came::Done),
    (Ask::Put(2, 9), Came::Done),
    (Ask::Get(2), Came::Full(9)),
    (Ask::Sync, Came::Done),
    (Ask::Get(2), Came::Full(9)),
    (Ask::Faults, Came::Number(0)),
];

/// The calls, on a new file.
fn play_new_file(report: &mut Report<'_>, path: &str) -> io::Result<()> {
    let mut device: FilePages = FilePages::create(report.rt(), path, 3)?;
    play(report, "a new file", &mut device, &CALLS);
    drop(device);
    Ok(())
}

/// What is looked at in the file that the calls leave.
static LOOKS_BEHIND_CALLS: [Look; 4] = [Look::Length, Look::Zeros, Look::SealOfZeros, Look::Nines];

/// Written, closed, and opened again: the bytes are those of zeros and nines, with their seals.
fn play_again(report: &mut Report<'_>, path: &str) -> io::Result<()> {
    play_new_file(report, path)?;
    play_looks(report, path, &LOOKS_BEHIND_CALLS)?;
    let pages = [Came::Full(0), Came::Damaged, Came::Full(9)];
    play_reads(report, "opened again", path, pages)
}

/// The bytes k modulo 251.
fn counting() -> [u8; 512] {
    let mut content = [0u8; 512];
    let mut next = 0u8;
    for byte in content.iter_mut() {
        *byte = next;
        next = if next < 250 { next + 1 } else { 0 };
    }
    content
}

/// Writes one page of a new file.
fn write_one(rt: &HostRuntime, path: &str, index: u16, content: &[u8; 512]) -> io::Result<Came> {
    let mut device: FilePages = FilePages::create(rt, path, 259)?;
    if device.count() <= index || device.write(index, content).is_err() {
        return Ok(Came::Fault);
    }
    Ok(asked(&mut device, Ask::Sync))
}

/// Whether one page of a file of 259 reads so.
fn is_read(rt: &HostRuntime, path: &str, index: u16, wanted: &PageRead) -> io::Result<bool> {
    let mut device: FilePages = FilePages::open(rt, path, 259)?;
    if device.count() <= index {
        return Ok(false);
    }
    match device.read(index) {
        Ok(page) => Ok(page == *wanted),
        Err(_) => Ok(false),
    }
}

/// Where page 258 stands.
const PLACE: usize = 258 * SLOT;

/// The bytes with everything after this place one slot earlier.
fn moved(alloc: Global, bytes: &[u8], place: usize) -> Result<Vec<u8>, AllocError> {
    let mut moved = vec![in alloc; 0u8; place.saturating_sub(SLOT)]?;
    moved.extend_from_slice(bytes.get(place..).unwrap_or(&[]))?;
    Ok(moved)
}

/// Writes the file of page 258 with that page one slot earlier.
fn move_up(rt: &HostRuntime, path: &str) -> io::Result<()> {
    let bytes = fs::read(rt, path)?;
    let moved = moved(rt.alloc(), &bytes, PLACE);
    drop(bytes);
    fs::write(rt, path, &moved?)
}

/// What is looked at in the file of page 258.
static LOOKS_AT_258: [Look; 2] = [Look::Page258, Look::SealOfPage258];

/// Makes a file of page 258 alone.
fn play_258(report: &mut Report<'_>, path: &str) -> io::Result<()> {
    let synced = write_one(report.rt(), path, 258, &counting())?;
    report.compare("page 258", synced, Came::Done);
    play_looks(report, path, &LOOKS_AT_258)
}

/// A page of a file of 259 reads so.
fn play_one(report: &mut Report<'_>, path: &str, index: u16, wanted: &PageRead) -> io::Result<()> {
    let is_read = is_read(report.rt(), path, index, wanted)?;
    report.compare(("page 258 as page", index), is_read, true);
    Ok(())
}

/// A page whose number has two bytes, with its seal; at another place it is damaged.
fn play_seal(report: &mut Report<'_>, path: &str) -> io::Result<()> {
    play_258(report, path)?;
    play_one(report, path, 258, &PageRead::Content(counting()))?;
    move_up(report.rt(), path)?;
    play_one(report, path, 257, &PageRead::Damaged)
}

/// Three pages of 1, 2 and 3.
const THREE: [(Ask, Came); 4] = [
    (Ask::Put(0, 1), Came::Done),
    (Ask::Put(1, 2), Came::Done),
    (Ask::Put(2, 3), Came::Done),
    (Ask::Sync, Came::Done),
];

/// Makes a file of three pages of 1, 2 and 3.
fn fill(report: &mut Report<'_>, path: &str) -> io::Result<()> {
    let mut device: FilePages = FilePages::create(report.rt(), path, 3)?;
    play(report, "three pages", &mut device, &THREE);
    drop(device);
    Ok(())
}

/// The bytes of such a file.
fn three(report: &mut Report<'_>, path: &str) -> io::Result<Vec<u8>> {
    fill(report, path)?;
    let bytes = fs::read(report.rt(), path)?;
    report.compare("three pages", bytes.len(), 1632);
    Ok(bytes)
}

/// Writes the bytes of a file with a damage.
fn damage_file(rt: &HostRuntime, path: &str, whole: &[u8], damage: Damage) -> io::Result<()> {
    let bytes = damaged(rt.alloc(), whole, damage)?;
    fs::write(rt, path, &bytes)
}

/// Each damage to the bytes of three pages.
fn play_each_damage(report: &mut Report<'_>, path: &str, whole: &[u8]) -> io::Result<()> {
    for (damage, pages) in DAMAGES {
        damage_file(report.rt(), path, whole, damage)?;
        let found = reads(report.rt(), path)?;
        report.compare(damage, found, pages);
    }
    Ok(())
}

/// The damages, and a file made anew in place of the last of them.
fn play_damages(report: &mut Report<'_>, path: &str) -> io::Result<()> {
    let whole = three(report, path)?;
    play_each_damage(report, path, &whole)?;
    play_anew(report, path)
}

/// How many pages there are in a new file of two.
fn count_anew(rt: &HostRuntime, path: &str) -> io::Result<u16> {
    let device: FilePages = FilePages::create(rt, path, 2)?;
    Ok(device.count())
}

/// Makes two pages, in place of a file that may be there: how many there are, and the length of the file.
fn play_anew(report: &mut Report<'_>, path: &str) -> io::Result<()> {
    let count = count_anew(report.rt(), path)?;
    report.compare("pages made anew", count, 2);
    let length = fs::read(report.rt(), path)?.len();
    report.compare("a file made anew", length, 1088);
    Ok(())
}

/// A file that is not there is not opened.
fn play_missing(report: &mut Report<'_>, path: &str) {
    let missing: io::Result<FilePages> = FilePages::open(report.rt(), path, 2);
    let is_missing = missing.is_err();
    drop(missing);
    report.compare("a file that is missing", is_missing, true);
}

/// Whether a file was not opened since it is in use.
fn is_in_use(opened: io::Result<FilePages>) -> bool {
    match opened {
        Ok(_device) => false,
        Err(e) => e.kind() == ErrorKind::WouldBlock,
    }
}

/// Whether a file still has these bytes.
fn is_unchanged(rt: &HostRuntime, path: &str, whole: &[u8]) -> bool {
    match fs::read(rt, path) {
        Ok(bytes) => bytes.as_slice() == whole,
        Err(_) => false,
    }
}

/// Whether a file that is open is not opened once more, is not made anew, and is unchanged then.
fn kept(rt: &HostRuntime, path: &str, whole: &[u8]) -> io::Result<[bool; 3]> {
    let device: FilePages = FilePages::open(rt, path, 3)?;
    let kept = [
        is_in_use(FilePages::open(rt, path, 3)),
        is_in_use(FilePages::create(rt, path, 3)),
        is_unchanged(rt, path, whole),
    ];
    drop(device);
    Ok(kept)
}

/// While a file is open it can neither be opened nor made anew, and its bytes stay as they are.
fn play_held(report: &mut Report<'_>, path: &str) -> io::Result<()> {
    let whole = three(report, path)?;
    for is_kept in &kept(report.rt(), path, &whole)? {
        report.compare("in use", *is_kept, true);
    }
    Ok(())
}

/// Closed, it can be opened again.
fn play_use(report: &mut Report<'_>, path: &str) -> io::Result<()> {
    play_held(report, path)?;
    let pages = [Came::Full(1), Came::Full(2), Came::Full(3)];
    play_reads(report, "closed", path, pages)
}

/// The calls on pages in a file with failing calls, and their expected outcomes.
#[derive(Clone, Copy)]
enum Turn {
    Asks(Ask, Came),
    /// The system drops what a failed sync had before it: the file holds the three pages again.
    Drops,
    /// What the first two pages of the file read as.
    Holds(Came, Came),
}

/// A scenario on a file of three pages with failing calls.
struct Scenario {
    name: &'static str,
    reads: u32,
    writes: u32,
    syncs: u32,
    turns: &'static [Turn],
}

/// Two syncs that fail, one that succeeds, and one with nothing to sync: content that was dropped comes back until the one that
/// succeeds, and synced content is not written again. A write that fails half done tears its page, and the next sync repairs it;
/// that sync may fail too. A read that fails.
const SCENARIOS: [Scenario; 3] = [
    Scenario {
        name: "two syncs fail",
        reads: 0,
        writes: 0,
        syncs: 2,
        turns: &[
            Turn::Asks(Ask::Put(1, 5), Came::Done),
            Turn::Asks(Ask::Sync, Came::Fault),
            Turn::Drops,
            Turn::Asks(Ask::Get(1), Came::Full(5)),
            Turn::Asks(Ask::Sync, Came::Fault),
            Turn::Drops,
            Turn::Asks(Ask::Sync, Came::Done),
            Turn::Holds(Came::Full(1), Came::Full(5)),
            Turn::Drops,
            Turn::Asks(Ask::Sync, Came::Done),
            Turn::Holds(Came::Full(1), Came::Full(2)),
            Turn::Asks(Ask::Faults, Came::Number(2)),
        ],
    },
    Scenario {
        name: "two writes fail",
        reads: 0,
        writes: 2,
        syncs: 0,
        turns: &[
            Turn::Asks(Ask::Put(0, 6), Came::Fault),
            Turn::Asks(Ask::Faults, Came::Number(1)),
            Turn::Holds(Came::Damaged, Came::Full(2)),
            Turn::Asks(Ask::Get(0), Came::Full(6)),
            Turn::Asks(Ask::Sync, Came::Fault),
            Turn::Asks(Ask::Sync, Came::Done),
            Turn::Holds(Came::Full(6), Came::Full(2)),
            Turn::Asks(Ask::Faults, Came::Number(2)),
        ],
    },
    Scenario {
        name: "a read fails",
        reads: 1,
        writes: 0,
        syncs: 0,
        turns: &[
            Turn::Asks(Ask::Get(0), Came::Fault),
            Turn::Asks(Ask::Get(0), Came::Full(1)),
            Turn::Asks(Ask::Faults, Came::Number(1)),
        ],
    },
];

/// Three pages in a file with failing calls.
fn with_faults(
    rt: &HostRuntime,
    path: &str,
    scenario: &Scenario,
) -> io::Result<FilePages<FileSlots<Faulty>>> {
    let files = FaultyFiles {
        rt,
        since: Since::FirstSync,
        reads: scenario.reads,
        writes: scenario.writes,
        syncs: scenario.syncs,
    };
    FilePages::open(&files, path, 3)
}

/// The paths of a file and of a copy of it, and the bytes that the file began with.
#[derive(Clone, Copy)]
struct Begun<'a> {
    path: &'a str,
    copy: &'a str,
    bytes: &'a [u8],
}

/// Copies a file.
fn copy_file(rt: &HostRuntime, path: &str, copy: &str) -> io::Result<()> {
    let bytes = fs::read(rt, path)?;
    fs::write(rt, copy, &bytes)
}

/// What the first two pages of a file in use read as: read from a copy, which no program has open.
fn reads_of_copy(rt: &HostRuntime, path: &str, copy: &str) -> io::Result<[Came; 2]> {
    copy_file(rt, path, copy)?;
    let [first, second, _] = reads(rt, copy)?;
    fs::remove_file(rt, copy)?;
    Ok([first, second])
}

/// Takes a turn.
fn play_turn<P: Pages>(
    report: &mut Report<'_>,
    begun: Begun<'_>,
    device: &mut P,
    case: (&'static str, u32),
    turn: Turn,
) -> io::Result<()> {
    match turn {
        Turn::Asks(ask, came) => report.compare(case, asked(device, ask), came),
        Turn::Drops => return fs::write(report.rt(), begun.path, begun.bytes),
        Turn::Holds(first, second) => {
            let pages = reads_of_copy(report.rt(), begun.path, begun.copy)?;
            report.compare(case, pages, [first, second])
        }
    }
    Ok(())
}

/// Takes the turns of a scenario.
fn play_turns<P: Pages>(
    report: &mut Report<'_>,
    begun: Begun<'_>,
    device: &mut P,
    scenario: &Scenario,
) -> io::Result<()> {
    let mut place = 0u32;
    for turn in scenario.turns {
        play_turn(report, begun, device, (scenario.name, place), *turn)?;
        place = place.saturating_add(1);
    }
    Ok(())
}

/// The turns of a scenario, on the file of three pages.
fn play_begun(report: &mut Report<'_>, begun: Begun<'_>, scenario: &Scenario) -> io::Result<()> {
    let mut device = with_faults(report.rt(), begun.path, scenario)?;
    let played = play_turns(report, begun, &mut device, scenario);
    drop(device);
    played
}

/// A scenario: three pages, and then its turns.
fn play_scenario(
    report: &mut Report<'_>,
    path: &str,
    copy: &str,
    scenario: &Scenario,
) -> io::Result<()> {
    let bytes = three(report, path)?;
    let begun = Begun {
        path,
        copy,
        bytes: &bytes,
    };
    play_begun(report, begun, scenario)
}

/// The scenarios, each on a new file.
fn play_scenarios(report: &mut Report<'_>, path: &str, copy: &str) -> io::Result<()> {
    for scenario in &SCENARIOS {
        play_scenario(report, path, copy, scenario)?;
    }
    Ok(())
}

/// Whether a file of three pages is not opened if some of its first reads, writes and syncs fail.
fn is_not_opened(rt: &HostRuntime, path: &str, [reads, writes, syncs]: [u32; 3]) -> bool {
    let files = FaultyFiles {
        rt,
        since: Since::Opening,
        reads,
        writes,
        syncs,
    };
    let opened: io::Result<FilePages<FileSlots<Faulty>>> = FilePages::open(&files, path, 3);
    let is_refused = opened.is_err();
    drop(opened);
    is_refused
}

/// The failing reads, writes and syncs, and whether the file is not opened.
static OPENINGS: [([u32; 3], bool); 4] = [
    ([1, 0, 0], true),
    ([0, 1, 0], true),
    ([0, 0, 1], true),
    ([0, 0, 0], false),
];

/// Opening reads each slot, writes it again unchanged, and syncs: if one of these calls fails the file is not opened, and it is as
/// it was, also after a write that was half done. If none fails its bytes are the same too.
fn play_opening(report: &mut Report<'_>, path: &str) -> io::Result<()> {
    let whole = three(report, path)?;
    for (faults, is_refused) in &OPENINGS {
        let is_not_opened = is_not_opened(report.rt(), path, *faults);
        report.compare(*faults, is_not_opened, *is_refused);
        let is_unchanged = is_unchanged(report.rt(), path, &whole);
        report.compare((*faults, "unchanged"), is_unchanged, true);
    }
    Ok(())
}

/// Pages in the file of a path.
fn play_file(report: &mut Report<'_>, path: &str, copy: &str) -> io::Result<()> {
    play_again(report, path)?;
    play_seal(report, path)?;
    play_damages(report, path)?;
    play_use(report, path)?;
    play_scenarios(report, path, copy)?;
    play_opening(report, path)?;
    fs::remove_file(report.rt(), path)
}

/// Pages in a file of this run's own in the folder for temporary files.
fn play_temporary(report: &mut Report<'_>) -> Result<()> {
    let path = path_of(report.rt(), "pages")?;
    let copy = path_of(report.rt(), "copy")?;
    play_file(report, path.as_str(), copy.as_str())?;
    play_missing(report, path.as_str());
    Ok(())
}

/// Pages in files: one in the folder for temporary files, and one with a plain name, which is in the folder where the program runs.
/// Both are removed.
pub fn play_files(report: &mut Report<'_>) -> Result<()> {
    report.begin("files");
    play_temporary(report)?;
    play_plain(report)?;
    report.end();
    Ok(())
}

/// Makes a file, and removes it.
fn play_removed(report: &mut Report<'_>, path: &str) -> io::Result<()> {
    play_anew(report, path)?;
    fs::remove_file(report.rt(), path)
}

/// A file of a plain name, made and removed.
fn play_plain(report: &mut Report<'_>) -> Result<()> {
    let id = process::id(report.rt().process());
    let name = format!(in report.alloc(); "test_store-{id}-plain")?;
    Ok(play_removed(report, name.as_str())?)
}
