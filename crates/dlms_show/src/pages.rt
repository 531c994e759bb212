//! The lines of pages.

use dlms_pages::PageRead;
use dlms_store::PAGES;
use dlms_survey::{Image, Judge, Place, Verdict, head_of, kind_name, place_of};
use std::alloc::Allocator;
use std::io;
use std::io::Write;

/// Writes a line about a page: its number, its place, the content of its head, and the verdict.
fn write_page<A: Allocator + Copy, W: Write>(
    image: &Image<A>,
    judge: &Judge<A>,
    page: u16,
    output: &mut W,
) -> io::Result<()> {
    let place = place_of(page);
    let verdict = judge.verdict(page);
    let PageRead::Content(bytes) = image.page(page) else {
        return writeln!(output, "{page:>4}  {place}  {verdict}");
    };
    if verdict == Verdict::Empty {
        return writeln!(output, "{page:>4}  {place}  {verdict}");
    }
    let head = head_of(bytes);
    let kind = match head.kind {
        Some(kind) => kind_name(kind),
        None => "unknown",
    };
    let version = head.version;
    let index = head.index;
    let generation = head.generation;
    writeln!(
        output,
        "{page:>4}  {place}  {kind:<11}  version {version}  index {index:>2}  generation {generation:>3}  {verdict}"
    )
}

/// The part of a file that a page is in, if that part has many pages.
fn part_of(page: u16) -> Option<&'static str> {
    match place_of(page) {
        Place::Journal(_) => Some("journal"),
        Place::Ring(_) => Some("ring"),
        Place::Gate(_) | Place::Body(..) => None,
    }
}

/// The first page from this one on that is not empty, or not in this part of the file.
fn empty_until<A: Allocator + Copy>(judge: &Judge<A>, page: u16, part: &str) -> u16 {
    for other in page..PAGES {
        if part_of(other) != Some(part) || judge.verdict(other) != Verdict::Empty {
            return other;
        }
    }
    PAGES
}

/// Writes a line for each page, and one for several consecutive empty ones in one part of the file.
pub fn write_pages<A: Allocator + Copy, W: Write>(
    image: &Image<A>,
    judge: &Judge<A>,
    output: &mut W,
) -> io::Result<()> {
    let mut told = 0;
    for page in 0..PAGES {
        if page < told {
            continue;
        }
        let part = part_of(page).unwrap_or("");
        let end = empty_until(judge, page, part);
        if end > page + 1 {
            told = end;
            let last = end - 1;
            writeln!(output, "{page:>4} to {last}  {part}  empty")?;
        } else {
            told = page + 1;
            write_page(image, judge, page, output)?;
        }
    }
    Ok(())
}

/// Whether a page of a file has a seal that fits it: a file in which none has one is no meter's.
pub fn has_pages<A: Allocator + Copy>(image: &Image<A>) -> bool {
    (0..PAGES).any(|page| matches!(image.page(page), PageRead::Content(_)))
}
