//! The bytes of pages that the scripts write and look for.

/// Bytes of a page.
#[derive(Clone, Copy)]
pub enum Bytes {
    Nothing,
    Gate(Gate),
    Body(Body),
    Page(Page),
    Records(Records),
}

/// An open gate.
#[derive(Clone, Copy)]
pub enum Gate {
    /// Of version 0 and generation 1, in the first slot.
    OfVersion0,
    /// The front of any of version 1.
    OfVersion1,
    /// Of generation 1, in the second slot.
    First,
    /// Of generation 2, in the second slot.
    Second,
    /// Of generation 3, in the first slot.
    Third,
    /// Of version 1 and the last generation, in the first slot.
    Last,
}

/// A part of the first body.
#[derive(Clone, Copy)]
pub enum Body {
    /// The head of generation 2, with no place of a row: 324 bytes.
    Second,
    /// The head of generation 3, with the place of one row: 340 bytes.
    Third,
    /// The head of generation 2, with the place of one row of two columns: 332 bytes.
    OfTwoColumns,
    /// The numbers at the end of the head: of the first row 0, after the last row 240.
    From0To240,
    /// No row after 241 others.
    From241,
    /// From the columns on: the register 2 and the clock, the reader's secret, and rows 0 to 30, of which the last one is of zeros.
    ColumnsAndNumbers,
    /// The first part for a new meter with 7 in its register 0: last moment, offset, period, registers, secret. All else is zeros.
    Seven,
    /// The whole of that meter, of version 1 and the last generation.
    Last,
}

/// A page of the journal or of the ring.
#[derive(Clone, Copy)]
pub enum Page {
    /// The journal's first of generation 1, filled by 82 records of six bytes: 492 bytes.
    FirstFull,
    /// The journal's last, filled likewise.
    LastFull,
    /// The journal's first of generation 2, with a record.
    Next,
    /// The journal's first of generation 1, with the record of 42 pulses.
    Of42Pulses,
    /// The journal's second of generation 1, with 41 captures.
    Of41Rows,
    /// The journal's first of generation 1: 42 pulses, the register 0 as the only column, and a row.
    OfOneColumn,
    /// The first of the ring: 480 bytes.
    Ring0,
    /// The eighth of the ring: 480 bytes.
    Ring7,
    /// The first of the ring, with rows of two columns: 240 bytes.
    RingOfTwoColumns,
}

/// Records of the journal.
#[derive(Clone, Copy)]
pub enum Records {
    Of42Pulses,
    /// A column that no state has.
    OfColumn4,
    OfColumn3,
}

impl Gate {
    fn bytes(self) -> &'static [u8] {
        match self {
            Gate::OfVersion0 => &[1, 0, 0, 0, 0, 0, 0, 0, 0, 0, 0, 1, 0, 0],
            Gate::OfVersion1 => &[1, 1],
            Gate::First => &[1, 2, 0, 1, 0, 0, 0, 0, 0, 0, 0, 1, 0, 0],
            Gate::Second => &[1, 2, 0, 1, 0, 0, 0, 0, 0, 0, 0, 2, 0, 0],
            Gate::Third => &[1, 2, 0, 0, 0, 0, 0, 0, 0, 0, 0, 3, 0, 0],
            Gate::Last => &[
                1, 1, 0, 0, 0xff, 0xff, 0xff, 0xff, 0xff, 0xff, 0xff, 0xff, 0, 0,
            ],
        }
    }
}

/// From the columns on.
const COLUMNS_AND_NUMBERS: [u8; 38] = [
    2, 3, 0, 0, 0, 8, 0x32, 0x33, 0x34, 0x35, 0x36, 0x37, 0x38, 0x39, 0, 0, 0, 0, 0, 0, 0, 0, 0, 0,
    0, 0, 0, 0, 0, 0, 0, 0, 0, 0, 0, 0, 0, 31,
];

/// A meter with 7 in its register 0.
const SEVEN: [u8; 37] = [
    0, 0, 0, 0, 0, 0, 0, 0, 0, 0, 0, 0, 0, 0, 3, 0x84, 0, 0, 0, 7, 0, 0, 0, 0, 0, 0, 0, 0, 8, 0x31,
    0x32, 0x33, 0x34, 0x35, 0x36, 0x37, 0x38,
];

/// A body of such a meter.
const LAST_BODY: [u8; 53] = [
    3, 1, 0, 0, 0xff, 0xff, 0xff, 0xff, 0xff, 0xff, 0xff, 0xff, 0x01, 0x2e, 0, 0, 0, 0, 0, 0, 0, 0,
    0, 0, 0, 0, 0, 0, 0, 0, 3, 0x84, 0, 0, 0, 7, 0, 0, 0, 0, 0, 0, 0, 0, 8, 0x31, 0x32, 0x33, 0x34,
    0x35, 0x36, 0x37, 0x38,
];

impl Body {
    fn bytes(self) -> &'static [u8] {
        match self {
            Body::Second => &[3, 2, 0, 0, 0, 0, 0, 0, 0, 0, 0, 2, 0x01, 0x44, 0, 0],
            Body::Third => &[3, 2, 0, 0, 0, 0, 0, 0, 0, 0, 0, 3, 0x01, 0x54, 0, 0],
            Body::OfTwoColumns => &[3, 2, 0, 0, 0, 0, 0, 0, 0, 0, 0, 2, 0x01, 0x4c, 0, 0],
            Body::From0To240 => &[0, 0, 0, 0, 0, 0, 0, 0, 0, 0, 0, 0, 0, 0, 0, 240],
            Body::From241 => &[0, 0, 0, 0, 0, 0, 0, 241, 0, 0, 0, 0, 0, 0, 0, 241],
            Body::ColumnsAndNumbers => &COLUMNS_AND_NUMBERS,
            Body::Seven => &SEVEN,
            Body::Last => &LAST_BODY,
        }
    }
}

/// 42 pulses, a column, and a row.
const ONE_COLUMN: [u8; 26] = [
    4, 2, 0, 0, 0, 0, 0, 0, 0, 0, 0, 1, 0, 10, 0, 0, 1, 0, 0, 0, 0, 42, 0x0c, 1, 1, 0x0b,
];

/// 42 pulses.
const PULSES_42: [u8; 22] = [
    0x04, 0x02, 0x00, 0x00, 0x00, 0x00, 0x00, 0x00, 0x00, 0x00, 0x00, 0x01, 0x00, 0x06, 0x00, 0x00,
    0x01, 0x00, 0x00, 0x00, 0x00, 0x2a,
];

/// 41 captures.
const ROWS_41: [u8; 57] = [
    4, 2, 0, 1, 0, 0, 0, 0, 0, 0, 0, 1, 0, 41, 0, 0, 11, 11, 11, 11, 11, 11, 11, 11, 11, 11, 11,
    11, 11, 11, 11, 11, 11, 11, 11, 11, 11, 11, 11, 11, 11, 11, 11, 11, 11, 11, 11, 11, 11, 11, 11,
    11, 11, 11, 11, 11, 11,
];

impl Page {
    fn bytes(self) -> &'static [u8] {
        match self {
            Page::FirstFull => &[4, 2, 0, 0, 0, 0, 0, 0, 0, 0, 0, 1, 0x01, 0xec],
            Page::LastFull => &[4, 2, 0, 15, 0, 0, 0, 0, 0, 0, 0, 1, 0x01, 0xec],
            Page::Next => &[4, 2, 0, 0, 0, 0, 0, 0, 0, 0, 0, 2, 0, 6],
            Page::Of42Pulses => &PULSES_42,
            Page::Of41Rows => &ROWS_41,
            Page::OfOneColumn => &ONE_COLUMN,
            Page::Ring0 => &[5, 2, 0, 0, 0, 0, 0, 0, 0, 0, 0, 0, 0x01, 0xe0, 0, 0],
            Page::Ring7 => &[5, 2, 0, 7, 0, 0, 0, 0, 0, 0, 0, 7, 0x01, 0xe0, 0, 0],
            Page::RingOfTwoColumns => &[5, 2, 0, 0, 0, 0, 0, 0, 0, 0, 0, 0, 0, 0xf0, 0, 0],
        }
    }
}

impl Records {
    fn bytes(self) -> &'static [u8] {
        match self {
            Records::Of42Pulses => &[1, 0, 0, 0, 0, 42],
            Records::OfColumn4 => &[0x0c, 1, 4],
            Records::OfColumn3 => &[0x0c, 1, 3],
        }
    }
}

impl Bytes {
    /// The bytes themselves.
    pub fn of(self) -> &'static [u8] {
        match self {
            Bytes::Nothing => &[],
            Bytes::Gate(gate) => gate.bytes(),
            Bytes::Body(body) => body.bytes(),
            Bytes::Page(page) => page.bytes(),
            Bytes::Records(records) => records.bytes(),
        }
    }
}
