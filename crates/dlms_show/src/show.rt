//! A file told.

use crate::fault::ShowFault;
use crate::file::bytes_of;
use crate::json::write_json_report;
use crate::report::{Curve, write_report};
use dlms_survey::Image;
use std::fs::File;
use std::io::Write;
use std::rt::Files;

/// Writes the whole report on a file. The file is opened for reading alone, under its shared lock. Its contents are never a fault.
pub fn show_file<R: Files<File = File> + AllocGlobal, W: Write>(
    rt: &R,
    path: &str,
    curve: Curve,
    output: &mut W,
) -> Result<(), ShowFault> {
    let bytes = match bytes_of(rt, path) {
        Ok(bytes) => bytes,
        Err(error) => return Err(ShowFault::File(error)),
    };
    let mut image = Image::of_bytes(rt.alloc(), &bytes.pages)?;
    write_report(rt.alloc(), &mut image, bytes.length, curve, output)
}

/// The same as one object of JSON.
pub fn show_file_as_json<R: Files<File = File> + AllocGlobal, W: Write>(
    rt: &R,
    path: &str,
    output: &mut W,
) -> Result<(), ShowFault> {
    let bytes = match bytes_of(rt, path) {
        Ok(bytes) => bytes,
        Err(error) => return Err(ShowFault::File(error)),
    };
    let mut image = Image::of_bytes(rt.alloc(), &bytes.pages)?;
    write_json_report(rt.alloc(), &mut image, bytes.length, output)
}
