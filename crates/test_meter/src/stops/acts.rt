//! What happens to a meter whose power stops, or whose device fails.

/// The most bytes of an APDU that the client takes.
pub const SIZE: u16 = 64;

/// A thing that happens.
#[derive(Clone, Copy)]
pub enum Act {
    /// So many events of one pulse each.
    Pulses(u32),
    Moment(u32),
    /// A moment at the end of each period from the first to the last: a row each.
    Periods(u32, u32),
    Asks(Asked),
}

/// An APDU of the client, and what its answer begins with.
#[derive(Clone, Copy)]
pub struct Asked {
    pub apdu: &'static [u8],
    pub answer: &'static [u8],
    /// The answer if the device fails at it.
    pub fails: &'static [u8],
    /// The answer if the device failed before it.
    pub late: &'static [u8],
}

/// SET of the text, which is of one byte.
pub const SET_A: Asked = Asked {
    apdu: &[
        0xc1, 0x01, 0xc1, 0, 1, 0, 0, 96, 1, 1, 255, 2, 0, 0x09, 1, b'A',
    ],
    answer: &[0xc5, 0x01, 0xc1, 0],
    fails: &[0xc5, 0x01, 0xc1, 1],
    late: &[0xc5, 0x01, 0xc1, 1],
};

const SET_B: Asked = Asked {
    apdu: &[
        0xc1, 0x01, 0xc1, 0, 1, 0, 0, 96, 1, 1, 255, 2, 0, 0x09, 1, b'B',
    ],
    answer: &[0xc5, 0x01, 0xc1, 0],
    fails: &[0xc5, 0x01, 0xc1, 1],
    late: &[0xc5, 0x01, 0xc1, 1],
};

/// ACTION capture of the load profile.
const CAPTURE: Asked = Asked {
    apdu: &[0xc3, 0x01, 0xc1, 0, 7, 1, 0, 99, 1, 0, 255, 2, 1, 0x0f, 0],
    answer: &[0xc7, 0x01, 0xc1, 0, 0],
    fails: &[0xc7, 0x01, 0xc1, 1, 0],
    late: &[0xc7, 0x01, 0xc1, 1, 0],
};

/// GET of the first register.
const READ: Asked = Asked {
    apdu: &[0xc0, 0x01, 0xc1, 0, 3, 1, 0, 1, 8, 0, 255, 2, 0],
    answer: &[0xc4, 0x01, 0xc1, 0, 0x06],
    fails: &[0xc4, 0x01, 0xc1, 1, 1],
    late: &[0xc4, 0x01, 0xc1, 1, 1],
};

/// GET of the object list, which goes out in blocks.
const LIST: Asked = Asked {
    apdu: &[0xc0, 0x01, 0xc1, 0, 15, 0, 0, 40, 0, 0, 255, 2, 0],
    answer: &[0xc4, 0x02, 0xc1, 0, 0, 0, 0, 1, 0],
    fails: &[0xc4, 0x01, 0xc1, 1, 1],
    late: &[0xc4, 0x01, 0xc1, 1, 1],
};

/// Its second block. Where its first one was not given, no GET is in progress.
const NEXT: Asked = Asked {
    apdu: &[0xc0, 0x02, 0xc1, 0, 0, 0, 1],
    answer: &[0xc4, 0x02, 0xc1, 0, 0, 0, 0, 2, 0],
    fails: &[0xc4, 0x02, 0xc1, 1, 0, 0, 0, 1, 1, 1],
    late: &[0xc4, 0x02, 0xc1, 1, 0, 0, 0, 1, 1, 16],
};

/// Three pages of the journal.
const FIRST: [Act; 8] = [
    Act::Pulses(3),
    Act::Moment(900),
    Act::Asks(SET_A),
    Act::Pulses(2),
    Act::Asks(CAPTURE),
    Act::Asks(LIST),
    Act::Pulses(1),
    Act::Asks(NEXT),
];

/// A page of the journal.
const PAGE: [Act; 2] = [Act::Pulses(1), Act::Asks(READ)];

/// A checkpoint, where all pages are used.
const CHECKPOINT: [Act; 2] = [Act::Pulses(1), Act::Asks(SET_B)];

/// The 83rd pulse settles those before it, in a checkpoint where all pages are used. A page follows.
const LAST: [Act; 2] = [Act::Pulses(84), Act::Asks(READ)];

/// The 240th row since that checkpoint fills the ring, so the next event makes a checkpoint first, with eight ring pages. Each
/// hundredth row settles those before it.
const ROWS: [Act; 4] = [
    Act::Periods(2, 242),
    Act::Asks(READ),
    Act::Pulses(1),
    Act::Asks(SET_A),
];

/// The scenario: how often each of its parts comes. Its device is called 2 times for each page, and 6 times for each
/// checkpoint: 78 times. With its rows come four pages and a checkpoint with eight ring pages and a sync: 101 times.
pub const SCENARIO: [(u32, &[Act]); 6] = [
    (1, &FIRST),
    (13, &PAGE),
    (1, &CHECKPOINT),
    (16, &PAGE),
    (1, &LAST),
    (1, &ROWS),
];
