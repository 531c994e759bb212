//! Arguments that several commands take.

use crate::arguments::{Argument, Kind};

pub const PLACE: Argument = Argument {
    name: "PLACE",
    kind: Kind::Wanted,
    help: "The meter: HOST:PORT, /dev/.. or wrapper://HOST:PORT",
};

pub const METER_FILE: Argument = Argument {
    name: "FILE",
    kind: Kind::Wanted,
    help: "The meter's file",
};

pub const CLASS: Argument = Argument {
    name: "class",
    kind: Kind::Number("CLASS", 1, 65_535),
    help: "The class of the objects, 1 to 65535 [default: as listed]",
};

pub const JSON: Argument = Argument {
    name: "json",
    kind: Kind::Flag,
    help: "Prints JSON",
};

pub const JSON_LINES: Argument = Argument {
    name: "json",
    kind: Kind::Flag,
    help: "Prints an object of JSON for each row",
};

pub const QUIET: Argument = Argument {
    name: "quiet",
    kind: Kind::Flag,
    help: "Shows no progress on a terminal",
};

pub const SET_CLOCK: Argument = Argument {
    name: "set",
    kind: Kind::Flag,
    help: "Sets a clock that is off by more than the threshold",
};

pub const THRESHOLD: Argument = Argument {
    name: "threshold",
    kind: Kind::Number("SECONDS", 0, 86_400),
    help: "How far off a clock may be, 0 to 86400 [default: 5]",
};

pub const WRAPPER: Argument = Argument {
    name: "wrapper",
    kind: Kind::Flag,
    help: "Speaks the TCP wrapper (IEC 62056-47), not HDLC",
};

pub const DEADLINE: Argument = Argument {
    name: "deadline",
    kind: Kind::Number("SECONDS", 1, 86_400),
    help: "How long a poll may take, 1 to 86400 [default: 300]",
};

pub const SECRET_FILE: Argument = Argument {
    name: "secret-file",
    kind: Kind::Option("FILE"),
    help: "The file with the client's secret",
};

const TIMEOUT: Argument = Argument {
    name: "timeout",
    kind: Kind::Number("SECONDS", 1, 3_600),
    help: "How long an answer may take, 1 to 3600 [default: 2]",
};

const RETRIES: Argument = Argument {
    name: "retries",
    kind: Kind::Number("COUNT", 0, 100),
    help: "Calls a silent meter again, 0 to 100 times [default: 0]",
};

const POLL_RETRIES: Argument = Argument {
    name: "retries",
    kind: Kind::Number("COUNT", 0, 100),
    help: "Begins anew, 0 to 100 times [default: until the deadline]",
};

const SERVER: Argument = Argument {
    name: "server",
    kind: Kind::Option("UPPER[/LOWER]"),
    help: "The meter's address, or its wrapper port [default: 1]",
};

const WIDE: Argument = Argument {
    name: "wide",
    kind: Kind::Flag,
    help: "Sends the meter's address in four octets",
};

const INFORMATION: Argument = Argument {
    name: "information",
    kind: Kind::Number("OCTETS", 128, 2_030),
    help: "Proposes frames of this size, 128 to 2030 [default: 128]",
};

const SECURITY: Argument = Argument {
    name: "security",
    kind: Kind::Option("FILE"),
    help: "Protects messages with the keys in FILE (suite 0)",
};

const COUNTER_FROM: Argument = Argument {
    name: "counter-from",
    kind: Kind::Option("NAME"),
    help: "With --security: reads the last counter from NAME",
};

/// The meter that is polled, and how it is reached.
pub const POLLING: &[Argument] = &[
    SECRET_FILE,
    TIMEOUT,
    POLL_RETRIES,
    WRAPPER,
    Argument {
        name: "client",
        kind: Kind::Number("SAP", 1, 127),
        help: "Asks as this client, 1 to 127 [default: 1, management]",
    },
    SERVER,
    WIDE,
    INFORMATION,
    SECURITY,
    COUNTER_FROM,
];

/// The meter to ask, the client that asks, whether the frames are explained, and the longest value.
pub const ASKING: &[Argument] = &[
    SERVER,
    WIDE,
    INFORMATION,
    WRAPPER,
    TIMEOUT,
    RETRIES,
    Argument {
        name: "client",
        kind: Kind::Number("SAP", 1, 127),
        help: "The client's address, 1 to 127 [default: 16, public]",
    },
    SECRET_FILE,
    SECURITY,
    COUNTER_FROM,
    Argument {
        name: "verbose",
        kind: Kind::ShortFlag('v'),
        help: "Explains each frame on standard error",
    },
    Argument {
        name: "most",
        kind: Kind::Number("BYTES", 1, 16_777_216),
        help: "The longest value, 1 to 16777216 [default: 4194304]",
    },
];
