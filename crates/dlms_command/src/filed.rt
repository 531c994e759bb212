//! The rows of notifications, in readings files: clock and three registers.

ghost use Rattle.std.specs.Prelude.{◌≡◌, Some, IfSome};
ghost use Rattle.dlms_headend.specs.Rows.{IsReading};

use crate::Fault;
use dlms_data::secs;
use dlms_filing::FilePlace;
use dlms_headend::Row;
use dlms_lines::FieldFault;
use dlms_listen::Content;
use dlms_polling::{file_readings, hold_file, judge, open_readings};
use dlms_printing::Notified;
use dlms_values::{UnsignedKind, Value};
use std::alloc::{AllocError, Global};
use std::fs::{File, Files};
use std::io::Write;
use std::net::Net;

/// The registers of a row, in their order (IEC 62056-6-1): active energy import and export, reactive energy import.
const REGISTERS: [[u8; 6]; 3] = [
    [1, 0, 1, 8, 0, 255],
    [1, 0, 2, 8, 0, 255],
    [1, 0, 3, 8, 0, 255],
];

/// The unit of active energy, Wh, and that of reactive energy, varh (IEC 62056-6-2).
const ENERGIES: [u8; 2] = [30, 32];

/// The power of ten that a telegram's kWh is of Wh.
const KILO: i8 = 3;

/// A number of a telegram in Wh or varh, if it is a whole one that fits.
fn energy_of(number: u64, scale: (i8, u8)) -> Option<u32> {
    let (scaler, unit) = scale;
    if unit != ENERGIES[0] && unit != ENERGIES[1] {
        return None;
    }
    let factor = match scaler {
        0 => 1,
        1 => 10,
        2 => 100,
        KILO => 1000,
        _ => return None,
    };
    u32::try_from(number.checked_mul(factor)?).ok()
}

/// The number of the register of this name.
fn register_of(notified: &Notified<'_>, name: [u8; 6]) -> Option<u32> {
    let entry = notified.named(name)?;
    match (entry.value, notified.received.content) {
        (Value::Unsigned(_, number), Content::Telegram(_)) => energy_of(number, entry.scale?),
        (Value::Unsigned(UnsignedKind::DoubleLongUnsigned, number), Content::Notification(_)) =>
            u32::try_from(number).ok(),
        _ => None,
    }
}

/// The row of a notification that has a clock and the three registers.
fn row_of(notified: &Notified<'_>) -> Option<Row>
    ensures { IfSome result IsReading }
{
    let clock = secs(&notified.time()?)?;
    let [first, second, third] = REGISTERS;
    Some(Row {
        clock,
        registers: [
            register_of(notified, first)?,
            register_of(notified, second)?,
            register_of(notified, third)?,
        ],
    })
}

/// Appends two hexadecimal digits for each octet.
fn append_title(alloc: Global, name: &mut String, title: [u8; 8]) -> Result<(), AllocError> {
    for octet in title {
        let digits = format!(in alloc; "{octet:02x}")?;
        name.push_str(digits.as_str())?;
    }
    Ok(())
}

/// The name of a sender's file: its title, or the last part of its place, without a port.
fn file_of(alloc: Global, folder: &str, notified: &Notified<'_>) -> Result<String, AllocError> {
    let mut name = format!(in alloc; "{folder}/")?;
    match notified.received.seal {
        Some(seal) => append_title(alloc, &mut name, seal.title)?,
        None => {
            let from = notified.from;
            let from = match from.rfind('/') {
                Some(at) => from.get(at.saturating_add(1)..).unwrap_or(from),
                None => match from.rfind(':') {
                    Some(at) => from.get(..at).unwrap_or(from),
                    None => from,
                },
            };
            name.push_str(from)?;
        }
    }
    name.push_str(".csv")?;
    Ok(name)
}

/// The fault of a file in a folder.
fn fault_in<'a>(alloc: Global, folder: &'a str, fault: FieldFault<'_>) -> Fault<'a> {
    match fault {
        FieldFault::System(_, error) => Fault::of_system(alloc, folder, &error),
        FieldFault::Clock(_, fault) => Fault::Clock(folder, fault),
        FieldFault::Other(fault) => Fault::of_poll(folder, Some(folder), fault),
        _ => Fault::Input(folder),
    }
}

/// Files the row of a notification or a telegram in a file of its sender, by the rules of a poll: one that is not later than the row
/// before it is left out, and reported. What has no clock or not the three registers has no row.
#[inline(never)]
pub fn file_row<'a, H: Net + Files<File = File> + AllocGlobal, E: Write>(
    host: &H,
    folder: &'a str,
    notified: &Notified<'_>,
    errors: &mut E,
) -> Result<(), Fault<'a>> {
    let alloc = host.alloc();
    let Some(row) = row_of(notified) else {
        return Ok(());
    };
    let file = file_of(alloc, folder, notified)?;
    match file_in(host, file.as_str(), row, errors) {
        Ok(()) => Ok(()),
        Err(fault) => Err(fault_in(alloc, folder, fault)),
    }
}

/// Files a row in this file.
fn file_in<'f, H: Net + Files<File = File> + AllocGlobal, E: Write>(
    host: &H,
    file: &'f str,
    row: Row,
    errors: &mut E,
) -> Result<(), FieldFault<'f>>
    requires { IsReading row }
{
    let alloc = host.alloc();
    let rows = [row];
    let mut place = FilePlace::of(host);
    match hold_file(&mut place, Some(file)) {
        Ok(()) => {}
        Err(fault) => return Err(fault),
    }
    let mut readings = match open_readings(alloc, Some(file), &mut place) {
        Ok(readings) => readings,
        Err(fault) => return Err(fault),
    };
    match judge(&rows, None, false) {
        Ok(()) => {}
        Err(fault) => return Err(FieldFault::Clock(file, fault)),
    }
    let mut printed = Vec::new(alloc);
    file_readings(
        alloc,
        &mut place,
        &mut readings,
        &rows,
        Some(file),
        &mut printed,
        errors,
    )
}
