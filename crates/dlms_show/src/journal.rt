//! The events of journal pages.

use crate::words::Words;
use dlms_journal::{PageKind, Records, payload_of, records_of};
use dlms_pages::PageRead;
use dlms_store::{JOURNAL, JOURNAL_PAGES};
use dlms_survey::{Image, Judge, head_of};
use std::alloc::Allocator;
use std::io;
use std::io::Write;

/// The records of a journal page; none if it is no journal page, or its payload is not whole records.
pub fn records_at<A: Allocator + Copy>(image: &Image<A>, page: u16) -> Option<Records<'_>> {
    let PageRead::Content(bytes) = image.page(page) else {
        return None;
    };
    if head_of(bytes).kind != Some(PageKind::Journal) {
        return None;
    }
    records_of(payload_of(bytes)?)
}

/// Writes the events of a page, one a line.
fn write_events<W: Write>(events: Records<'_>, output: &mut W) -> io::Result<()> {
    for event in events {
        let words = Words(&event);
        writeln!(output, "        {words}")?;
    }
    Ok(())
}

/// Writes the events of each journal page that has whole records, and whether they count.
pub fn write_journal<A: Allocator + Copy, W: Write>(
    image: &Image<A>,
    judge: &Judge<A>,
    output: &mut W,
) -> io::Result<()> {
    for index in 0..JOURNAL_PAGES {
        let page = JOURNAL + index;
        if let Some(events) = records_at(image, page) {
            let verdict = judge.verdict(page);
            writeln!(output, "  page {page}, {verdict}")?;
            write_events(events, output)?;
        }
    }
    Ok(())
}
