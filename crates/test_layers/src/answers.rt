//! What answers are put together of.

use crate::fault::RowFault;
use std::fmt::{Debug, Display, Write};

/// A number.
pub fn put_number(answer: &mut String, number: u64) -> Result<(), RowFault> {
    Ok(write!(answer, "{number}")?)
}

/// A number of more than eight bytes.
pub fn put_wide(answer: &mut String, number: u128) -> Result<(), RowFault> {
    Ok(write!(answer, "{number}")?)
}

/// A number with its sign.
pub fn put_signed(answer: &mut String, number: i64) -> Result<(), RowFault> {
    Ok(write!(answer, "{number}")?)
}

/// A word, followed by a number.
pub fn put_with_number(answer: &mut String, word: &str, number: u64) -> Result<(), RowFault> {
    answer.push_str(word)?;
    put_number(answer, number)
}

/// A number, and what parts it from what follows.
pub fn put_number_and(answer: &mut String, number: u64, behind: char) -> Result<(), RowFault> {
    put_number(answer, number)?;
    Ok(answer.push(behind)?)
}

/// A value, as it is shown.
pub fn put_text<T: Display>(answer: &mut String, value: &T) -> Result<(), RowFault> {
    Ok(write!(answer, "{value}")?)
}

/// A value, variant by variant and field by field.
pub fn put_shown<T: Debug>(answer: &mut String, value: &T) -> Result<(), RowFault> {
    Ok(write!(answer, "{value:?}")?)
}
