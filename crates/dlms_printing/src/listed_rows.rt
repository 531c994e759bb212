//! The rows of a profile's buffer while it comes: each once it is complete.

use dlms_buffer::BufferFault;
use dlms_values::{Items, Value, ValueFault, read};

/// The tag of an array (A-XDR, IEC 62056-5-3).
const ARRAY: u8 = 1;

/// Added to the number of octets of a long count, in the octet before them.
const LONG_COUNT: u8 = 0x80;

const MOST_COUNT_OCTETS: usize = 4;

/// The kind of a buffer, by its first octets.
#[derive(Clone, Copy, PartialEq, Eq)]
enum Kind {
    Unknown,
    Array,
    Other,
}

/// The first octets of a buffer: those of an array of this many rows, which begin at this offset.
enum Beginning {
    Short,
    Rows { count: u32, at: usize },
    Other,
}

/// The rows of an array that comes in pieces. It remembers the offset after the last complete row, so that no row is read again from
/// the array's start.
#[derive(Clone, Copy)]
pub struct ListedRows {
    width: usize,
    kind: Kind,
    count: u32,
    left: u32,
    offset: usize,
    /// How many octets of the buffer are waited for.
    wanted: usize,
}

/// The number in some octets, the highest first.
fn number_in(octets: &[u8]) -> u32 {
    let mut number = 0u32;
    for octet in octets {
        number = number.saturating_mul(256).saturating_add(u32::from(*octet));
    }
    number
}

/// The count after the tag of an array.
fn count_in(octets: &[u8]) -> Beginning {
    let [first, rest @ ..] = octets else {
        return Beginning::Short;
    };
    if *first < LONG_COUNT {
        return Beginning::Rows {
            count: u32::from(*first),
            at: 2,
        };
    }
    let size = usize::from(*first).saturating_sub(usize::from(LONG_COUNT));
    if size == 0 || size > MOST_COUNT_OCTETS {
        return Beginning::Other;
    }
    match rest.get(..size) {
        Some(octets) => Beginning::Rows {
            count: number_in(octets),
            at: size.saturating_add(2),
        },
        None => Beginning::Short,
    }
}

/// How a buffer begins.
fn beginning_of(value: &[u8]) -> Beginning {
    match value {
        [] => Beginning::Short,
        [first, rest @ ..] if *first == ARRAY => count_in(rest),
        _ => Beginning::Other,
    }
}

/// The value at the front, and how many octets follow it.
fn value_at(octets: &[u8]) -> Result<(Value<'_>, usize), ValueFault> {
    let (value, behind) = read(octets)?;
    Ok((value, behind.len()))
}

impl ListedRows {
    /// Nothing has come of rows of this many columns.
    pub fn new(width: usize) -> Self {
        ListedRows {
            width,
            kind: Kind::Unknown,
            count: 0,
            left: 0,
            offset: 0,
            wanted: 0,
        }
    }

    /// Whether the buffer is an array, and no compact array.
    pub fn is_array(&self) -> bool {
        self.kind == Kind::Array
    }

    /// How many rows there are, by the array's count.
    pub fn count(&self) -> u32 {
        self.count
    }

    /// How many rows were read.
    pub fn taken(&self) -> u32 {
        self.count.saturating_sub(self.left)
    }

    /// No more of the buffer comes.
    pub fn end(&mut self) {
        self.wanted = 0;
    }

    /// Reads the count of the rows, once it is there.
    fn begin(&mut self, value: &[u8]) {
        match beginning_of(value) {
            Beginning::Short => {}
            Beginning::Rows { count, at } => {
                self.kind = Kind::Array;
                self.count = count;
                self.left = count;
                self.offset = at;
            }
            Beginning::Other => self.kind = Kind::Other,
        }
    }

    /// The octets in which the next row is looked for. While it is not complete, it is read again only once twice as much of it is
    /// there: all tries that fail together read less than twice its octets.
    fn octets_of_next<'v>(&self, value: &'v [u8]) -> Option<&'v [u8]> {
        if self.left == 0 || value.len() < self.wanted {
            return None;
        }
        value.get(self.offset..)
    }

    /// The values of the next row, one for each column, if it is complete.
    pub fn next_row<'v>(&mut self, value: &'v [u8]) -> Result<Option<Items<'v>>, BufferFault> {
        if self.kind == Kind::Unknown {
            self.begin(value);
        }
        let Some(octets) = self.octets_of_next(value) else {
            return Ok(None);
        };
        match value_at(octets) {
            Ok((Value::Structure(values), behind)) => {
                if values.len() as usize != self.width {
                    return Err(BufferFault::Width);
                }
                self.offset = value.len().saturating_sub(behind);
                self.left = self.left.saturating_sub(1);
                Ok(Some(values))
            }
            Ok(_) => Err(BufferFault::Row),
            Err(ValueFault::Short) => {
                self.wanted = value.len().saturating_add(octets.len());
                Ok(None)
            }
            Err(fault) => Err(BufferFault::Value(fault)),
        }
    }
}
