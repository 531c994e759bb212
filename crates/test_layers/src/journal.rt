//! Rows of `dlms_journal`.

use crate::answers::{put_number_and, put_shown, put_with_number};
use crate::bench::Bench;
use crate::events::event_of;
use crate::fault::RowFault;
use crate::hexadecimal::put_hex;
use crate::words::Words;
use dlms_journal::{
    MOST_PAYLOAD, PAGE_BYTES, PageKind, generation_of, index_of, kind_of, page_of, payload_of,
    record_of, records_of, version_of,
};

/// The calls of records and pages.
#[derive(Clone, Copy)]
pub struct JournalBench;

/// The record of an event.
fn put_record(words: &mut Words<'_>, answer: &mut String) -> Result<(), RowFault> {
    let call = words.word()?;
    let event = event_of(call, words)?;
    put_hex(answer, record_of(&event).as_slice())
}

/// The events of records.
fn put_records(bytes: &[u8], answer: &mut String) -> Result<(), RowFault> {
    let Some(events) = records_of(bytes) else {
        return Ok(answer.push_str("no")?);
    };
    answer.push_str("yes")?;
    for event in events {
        answer.push(' ')?;
        put_shown(answer, &event)?;
    }
    Ok(())
}

/// How long each beginning is that is whole records.
fn put_cuts(bytes: &[u8], answer: &mut String) -> Result<(), RowFault> {
    for len in 0..=bytes.len() {
        if records_of(&bytes[..len]).is_some() {
            put_number_and(answer, len as u64, ',')?;
        }
    }
    Ok(())
}

/// The page of a kind, an index, a generation and a payload.
fn put_page(words: &mut Words<'_>, answer: &mut String) -> Result<(), RowFault> {
    let Some(kind) = PageKind::of_number(words.byte()?) else {
        return Err(RowFault::Form);
    };
    let index = words.short()?;
    let generation = words.long()?;
    let payload = words.bytes()?;
    if payload.len() > MOST_PAYLOAD {
        return Err(RowFault::Form);
    }
    let page = page_of(kind, index, generation, &payload);
    put_hex(answer, page.as_slice())
}

/// The content of a page's head: kind, version, index, generation, and the length of the payload.
fn put_head(bytes: &[u8], answer: &mut String) -> Result<(), RowFault> {
    let mut page = [0u8; PAGE_BYTES];
    if bytes.len() != PAGE_BYTES {
        return Err(RowFault::Form);
    }
    page.copy_from_slice(bytes);
    match kind_of(&page) {
        Some(kind) => put_shown(answer, &kind)?,
        None => answer.push_str("unknown")?,
    }
    put_with_number(answer, " ", u64::from(version_of(&page)))?;
    put_with_number(answer, " ", u64::from(index_of(&page)))?;
    put_with_number(answer, " ", generation_of(&page))?;
    answer.push(' ')?;
    match payload_of(&page) {
        Some(payload) => put_hex(answer, payload),
        None => Ok(answer.push_str("no")?),
    }
}

impl Bench for JournalBench {
    fn step(&mut self, words: &mut Words<'_>, answer: &mut String) -> Result<(), RowFault> {
        match words.word()? {
            "record" => put_record(words, answer),
            "records" => put_records(&words.bytes()?, answer),
            "cuts" => put_cuts(&words.bytes()?, answer),
            "page" => put_page(words, answer),
            "head" => put_head(&words.bytes()?, answer),
            _ => Err(RowFault::Form),
        }
    }
}
