//! The columns of a meter's load profile, in words.

use dlms_headend::{ColumnList, ListedColumn};
use std::fmt;

/// The clock of a meter: its class and its name (IEC 62056-6-2, Clock).
const CLOCK: (u16, [u8; 6]) = (8, [0, 0, 1, 0, 0, 255]);

/// The class of a register (IEC 62056-6-2, Register).
const REGISTER: u16 = 3;

/// The attribute that a clock's time and a register's value are.
const VALUE: u8 = 2;

/// A column as text: what it captures, and which attribute if it is not the value of a clock or of a register.
#[derive(Drop)]
struct Column<'a>(&'a ListedColumn);

impl fmt::Display for Column<'_> {
    fn fmt<W: fmt::Write>(&self, f: &mut fmt::Formatter<W>) -> fmt::Result {
        let ListedColumn {
            class,
            name,
            attribute,
            index,
        } = *self.0;
        if (class, name) == CLOCK {
            f.write_str("clock")?;
        } else {
            let [medium, channel, quantity, kind, tariff, period] = name;
            write!(f, "{medium}.{channel}.{quantity}.{kind}.{tariff}.{period}")?;
            if class != REGISTER {
                write!(f, " class {class}")?;
            }
        }
        if attribute != VALUE {
            write!(f, " attribute {attribute}")?;
        }
        if index != 0 {
            write!(f, " index {index}")?;
        }
        Ok(())
    }
}

/// The columns that an answer lists, in words.
#[derive(Drop)]
pub struct Columns<'a>(pub &'a ColumnList);

impl fmt::Display for Columns<'_> {
    fn fmt<W: fmt::Write>(&self, f: &mut fmt::Formatter<W>) -> fmt::Result {
        let count = match self.0.count {
            Some(0) => return f.write_str("none"),
            Some(count) => count,
            None => return f.write_str("of another form"),
        };
        for (place, column) in self.0.columns.iter().take(count).enumerate() {
            if place > 0 {
                f.write_str(", ")?;
            }
            match column {
                Some(column) => Column(column).fmt(f)?,
                None => f.write_str("one of another form")?,
            }
        }
        match count.checked_sub(self.0.columns.len()) {
            Some(0) | None => Ok(()),
            Some(more) => write!(f, " and {more} more"),
        }
    }
}
