//! Bytes as the rows write them: pairs of digits, `HH*N` for a byte that stands N times, and `~N` for N bytes that count
//! 00, 01 .. fa and begin again. Parts are joined by `+`, and `-` is no byte.

use crate::fault::RowFault;
use std::alloc::Global;

/// The most bytes that a part may repeat by its number.
const MOST: usize = 65_536;

/// The number of bytes of a part.
fn count_of(text: &str) -> Result<usize, RowFault> {
    match text.parse::<usize>() {
        Ok(count) if count <= MOST => Ok(count),
        _ => Err(RowFault::Form),
    }
}

/// A byte, repeated.
fn put_repeated(bytes: &mut Vec<u8>, pair: &[u8], count: usize) -> Result<(), RowFault> {
    let mut byte = [0u8; 1];
    if hex::decode_to_slice(pair, &mut byte).is_err() {
        return Err(RowFault::Form);
    }
    for _ in 0..count {
        bytes.push(byte[0])?;
    }
    Ok(())
}

/// So many bytes that count.
fn put_counting(bytes: &mut Vec<u8>, count: usize) -> Result<(), RowFault> {
    for at in 0..count {
        bytes.push((at % 251) as u8)?;
    }
    Ok(())
}

/// The bytes of pairs of digits.
fn put_pairs(bytes: &mut Vec<u8>, pairs: &str) -> Result<(), RowFault> {
    match hex::decode(*bytes.allocator(), pairs.as_bytes()) {
        Ok(more) => Ok(bytes.extend_from_slice(more.as_slice())?),
        Err(_) => Err(RowFault::Form),
    }
}

/// The bytes of a part.
fn put_part(bytes: &mut Vec<u8>, part: &str) -> Result<(), RowFault> {
    if part == "-" {
        return Ok(());
    }
    if let Some(count) = part.strip_prefix("~") {
        return put_counting(bytes, count_of(count)?);
    }
    match part.split_once("*") {
        Some((pair, count)) => put_repeated(bytes, pair.as_bytes(), count_of(count)?),
        None => put_pairs(bytes, part),
    }
}

/// The bytes of a word.
pub fn bytes_of(alloc: Global, word: &str) -> Result<Vec<u8>, RowFault> {
    let mut bytes = Vec::new(alloc);
    for part in word.split("+") {
        put_part(&mut bytes, part)?;
    }
    Ok(bytes)
}

/// Writes bytes in pairs of digits; `-` if there is none.
pub fn put_hex(answer: &mut String, bytes: &[u8]) -> Result<(), RowFault> {
    if bytes.is_empty() {
        return Ok(answer.push_str("-")?);
    }
    let digits = hex::encode(*answer.allocator(), bytes)?;
    Ok(answer.push_str(digits.as_str())?)
}
