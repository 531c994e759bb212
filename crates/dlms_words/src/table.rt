//! The program's commands, and the arguments of each.

use crate::arguments::{Argument, Kind};
use crate::help::{
    ACT, CLOCK, COLLECT, COMPLETIONS, EXPLAIN, FORMAT, GET, KEYS, LIST, LISTEN, LOOPBACK, MAN,
    NAMES, PLOT, POLL, PROFILE, REPLAY, SERVE, SET, SHOW,
};
use crate::shared::{
    ASKING, CLASS, DEADLINE, JSON, JSON_LINES, METER_FILE, PLACE, POLLING, QUIET, SECRET_FILE,
    SET_CLOCK, THRESHOLD, WRAPPER,
};

/// The program's version, as `--version` prints it.
pub const VERSION: &str = "0.1.0";

/// A command: its name, its purpose in one line, notes and examples, and its arguments; `more` says which meter and client.
#[derive(Clone, Copy)]
pub struct CommandWords {
    pub name: &'static str,
    pub about: &'static str,
    pub notes: &'static str,
    pub arguments: &'static [Argument],
    pub more: &'static [Argument],
}

/// The program's commands.
pub const COMMANDS: [CommandWords; 20] = [
    CommandWords {
        name: "format",
        about: "Makes a new meter in FILE",
        notes: FORMAT,
        arguments: &[
            Argument {
                name: "FILE",
                kind: Kind::Wanted,
                help: "The file of the new meter",
            },
            Argument {
                name: "demo",
                kind: Kind::Flag,
                help: "Gives the meter one day of a household",
            },
            Argument {
                name: "demo-day",
                kind: Kind::Flag,
                help: "The same, for the day (UTC) that ended at the last midnight",
            },
            Argument {
                name: "force",
                kind: Kind::Flag,
                help: "Formats a FILE that holds a meter; everything in it is lost",
            },
        ],
        more: &[],
    },
    CommandWords {
        name: "replay",
        about: "Replays standard input on the meter in FILE, or on a new one in memory",
        notes: REPLAY,
        arguments: &[Argument {
            name: "FILE",
            kind: Kind::Value,
            help: "The meter's file [default: a new meter in memory]",
        }],
        more: &[],
    },
    CommandWords {
        name: "loopback",
        about: "Polls a meter in memory over a socket, and prints the readings",
        notes: LOOPBACK,
        arguments: &[
            Argument {
                name: "readings",
                kind: Kind::Option("FILE"),
                help: "The readings file",
            },
            Argument {
                name: "stops",
                kind: Kind::Number("N", 0, 100),
                help: "The number of power failures, 0 to 100 [default: 0]",
            },
        ],
        more: &[],
    },
    CommandWords {
        name: "serve",
        about: "Serves the meter in FILE on a TCP port or a serial line",
        notes: SERVE,
        arguments: &[
            METER_FILE,
            Argument {
                name: "listen",
                kind: Kind::Option("ADDRESS:PORT"),
                help: "The address to listen on [default: 127.0.0.1:4059]",
            },
            Argument {
                name: "line",
                kind: Kind::Option("DEVICE"),
                help: "The serial line to serve instead of a port",
            },
            WRAPPER,
            Argument {
                name: "load",
                kind: Kind::Number("WATTS", 0, 1_000_000),
                help: "Makes pulses on channel 0, 0 to 1000000 W [default: 0]",
            },
            Argument {
                name: "tick",
                kind: Kind::Number("SECONDS", 1, 60),
                help: "The step of the meter's clock, 1 to 60 [default: 1]",
            },
            Argument {
                name: "quiet",
                kind: Kind::Flag,
                help: "Prints nothing except the place and a fault",
            },
            Argument {
                name: "idle",
                kind: Kind::Number("SECONDS", 1, 86_400),
                help: "If another waits: time without a frame [default: 5]",
            },
            Argument {
                name: "turn",
                kind: Kind::Number("SECONDS", 1, 86_400),
                help: "If another waits: time of a connection [default: 60]",
            },
            Argument {
                name: "inactivity",
                kind: Kind::Number("SECONDS", 1, 86_400),
                help: "Time without an answered frame [default: 120]",
            },
        ],
        more: &[],
    },
    CommandWords {
        name: "listen",
        about: "Prints what meters send by themselves, over a serial line or TCP",
        notes: LISTEN,
        arguments: &[
            Argument {
                name: "LINE",
                kind: Kind::Value,
                help: "The serial line, or - for standard input [default: TCP]",
            },
            Argument {
                name: "listen",
                kind: Kind::Option("ADDRESS:PORT"),
                help: "The address to listen on [default: 127.0.0.1:4059]",
            },
            Argument {
                name: "keys",
                kind: Kind::Option("FILE"),
                help: "Takes only what the keys in FILE open (suite 0)",
            },
            Argument {
                name: "json",
                kind: Kind::Flag,
                help: "Prints an object of JSON for each notification",
            },
            Argument {
                name: "csv",
                kind: Kind::Option("NAMES"),
                help: "Prints time and these values, as 1.7.0,1.8.0",
            },
            Argument {
                name: "readings",
                kind: Kind::Option("DIR"),
                help: "Files clock and registers in DIR, a file for each meter",
            },
            Argument {
                name: "count",
                kind: Kind::Number("N", 1, 1_000_000_000),
                help: "Ends after N notifications",
            },
            Argument {
                name: "quiet",
                kind: Kind::Flag,
                help: "Prints nothing about what is skipped or refused",
            },
        ],
        more: &[],
    },
    CommandWords {
        name: "poll",
        about: "Polls the meter at PLACE, and prints the new rows",
        notes: POLL,
        arguments: &[
            PLACE,
            Argument {
                name: "readings",
                kind: Kind::Option("FILE"),
                help: "The readings file",
            },
            Argument {
                name: "public",
                kind: Kind::Flag,
                help: "Asks as the public client",
            },
            Argument {
                name: "reader",
                kind: Kind::Flag,
                help: "Asks as the reader",
            },
            DEADLINE,
            Argument {
                name: "rows-per-request",
                kind: Kind::Number("N", 2, 100_000),
                help: "Asks for N rows at a time, and files them at once",
            },
            Argument {
                name: "check-clock",
                kind: Kind::Flag,
                help: "Refuses rows far past the system's clock",
            },
            Argument {
                name: "ahead",
                kind: Kind::Number("SECONDS", 0, 31_536_000),
                help: "Checks the clock with this margin [default: 86400]",
            },
            Argument {
                name: "strict",
                kind: Kind::Flag,
                help: "Refuses an answer with a row that is not later",
            },
            Argument {
                name: "expect",
                kind: Kind::Options("NAME=TEXT"),
                help: "Polls only if object NAME shows TEXT; up to four times",
            },
            JSON_LINES,
            Argument {
                name: "quiet",
                kind: Kind::Flag,
                help: "Prints nothing but rows and faults",
            },
        ],
        more: POLLING,
    },
    CommandWords {
        name: "collect",
        about: "Polls the meters of LIST, many at once, or asks them for attributes",
        notes: COLLECT,
        arguments: &[
            Argument {
                name: "LIST",
                kind: Kind::Wanted,
                help: "The file with a line for each meter, NAME PLACE",
            },
            Argument {
                name: "readings",
                kind: Kind::Option("DIR"),
                help: "Polls: the folder of the readings files, NAME.csv",
            },
            Argument {
                name: "get",
                kind: Kind::Option("NAMES"),
                help: "Asks for these attributes instead, up to 16",
            },
            Argument {
                name: "clock",
                kind: Kind::Flag,
                help: "Compares their clocks with the system's instead",
            },
            SET_CLOCK,
            THRESHOLD,
            SECRET_FILE,
            Argument {
                name: "client",
                kind: Kind::Number("SAP", 1, 127),
                help: "Asks as this client, 1 to 127 [default: 1, management]",
            },
            Argument {
                name: "at-once",
                kind: Kind::Number("N", 1, 100_000),
                help: "Meters polled at once, 1 to 100000 [default: 1000]",
            },
            DEADLINE,
            Argument {
                name: "every",
                kind: Kind::Number("SECONDS", 1, 31_536_000),
                help: "Seconds from the beginning of a round to that of the next",
            },
            Argument {
                name: "retries",
                kind: Kind::Number("COUNT", 0, 100),
                help: "Polls a failed meter again, 0 to 100 times [default: 0]",
            },
            Argument {
                name: "failed",
                kind: Kind::Option("FILE"),
                help: "Writes the lines of the meters that failed to FILE",
            },
            QUIET,
            JSON_LINES,
        ],
        more: &[],
    },
    CommandWords {
        name: "get",
        about: "Asks the meter at PLACE for attributes",
        notes: GET,
        arguments: &[
            PLACE,
            Argument {
                name: "NAMES",
                kind: Kind::Wanted,
                help: "The attributes, as 1.8.0, clock or 1-0:99.1.0*255/3, by commas",
            },
            CLASS,
            Argument {
                name: "raw",
                kind: Kind::Flag,
                help: "Prints encodings instead of values",
            },
            JSON,
        ],
        more: ASKING,
    },
    CommandWords {
        name: "list",
        about: "Lists the objects of the meter at PLACE",
        notes: LIST,
        arguments: &[
            PLACE,
            Argument {
                name: "long",
                kind: Kind::Flag,
                help: "Lists attributes and methods by name, with the values that can be read",
            },
            QUIET,
            JSON,
        ],
        more: ASKING,
    },
    CommandWords {
        name: "profile",
        about: "Prints rows of a profile of the meter at PLACE",
        notes: PROFILE,
        arguments: &[
            PLACE,
            Argument {
                name: "NAME",
                kind: Kind::Value,
                help: "The profile [default: 1.0.99.1.0.255]",
            },
            Argument {
                name: "from",
                kind: Kind::Option("TIME"),
                help: "Rows from this time on, as 2026-01-31T12:00:00",
            },
            Argument {
                name: "to",
                kind: Kind::Option("TIME"),
                help: "Rows up to this time",
            },
            Argument {
                name: "last",
                kind: Kind::Number("N", 1, 1_000_000),
                help: "Only the last N rows, 1 to 1000000",
            },
            Argument {
                name: "csv",
                kind: Kind::Flag,
                help: "Prints CSV",
            },
            JSON,
            Argument {
                name: "raw",
                kind: Kind::Flag,
                help: "Prints the numbers without scalers and units",
            },
            QUIET,
        ],
        more: ASKING,
    },
    CommandWords {
        name: "clock",
        about: "Compares the clock of the meter at PLACE with the system's, and sets it",
        notes: CLOCK,
        arguments: &[PLACE, SET_CLOCK, THRESHOLD, JSON],
        more: ASKING,
    },
    CommandWords {
        name: "set",
        about: "Sets an attribute of the meter at PLACE",
        notes: SET,
        arguments: &[
            PLACE,
            Argument {
                name: "NAME",
                kind: Kind::Wanted,
                help: "The attribute, as clock or 0-0:1.0.0*255",
            },
            Argument {
                name: "VALUE",
                kind: Kind::Wanted,
                help: "The value, as 900 or now; a type before it, u32:900, is optional",
            },
            CLASS,
            JSON,
        ],
        more: ASKING,
    },
    CommandWords {
        name: "act",
        about: "Calls a method of the meter at PLACE",
        notes: ACT,
        arguments: &[
            PLACE,
            Argument {
                name: "NAME",
                kind: Kind::Wanted,
                help: "The method, as 1.0.1.8.0.255/1",
            },
            Argument {
                name: "VALUE",
                kind: Kind::Value,
                help: "The parameter, as i8:0 [default: none]",
            },
            CLASS,
            JSON,
        ],
        more: ASKING,
    },
    CommandWords {
        name: "explain",
        about: "Explains the frames in FILE or on standard input, and what they carry",
        notes: EXPLAIN,
        arguments: &[
            Argument {
                name: "FILE",
                kind: Kind::Value,
                help: "A log, a pcap or a pcapng file [default: standard input]",
            },
            Argument {
                name: "raw",
                kind: Kind::Flag,
                help: "Also prints strings that may be a secret",
            },
            Argument {
                name: "short",
                kind: Kind::Flag,
                help: "Prints a line for each frame",
            },
            Argument {
                name: "hex",
                kind: Kind::Flag,
                help: "Prints the octets of each frame beside it",
            },
            Argument {
                name: "json",
                kind: Kind::Flag,
                help: "Prints an object of JSON for each frame",
            },
            Argument {
                name: "keys",
                kind: Kind::Option("FILE"),
                help: "Opens ciphered APDUs with the keys in FILE (suite 0)",
            },
            Argument {
                name: "color",
                kind: Kind::Option("WHEN"),
                help: "Colors: auto, always or never [default: auto]",
            },
            Argument {
                name: "html",
                kind: Kind::Option("FILE"),
                help: "Writes the log into a copy of PAGE, which explains it in a browser",
            },
            Argument {
                name: "page",
                kind: Kind::Option("PAGE"),
                help: "The page of --html [default: dlms-explain.html]",
            },
            QUIET,
        ],
        more: &[],
    },
    CommandWords {
        name: "show",
        about: "Shows the contents of the meter's file FILE, damaged or not",
        notes: SHOW,
        arguments: &[
            METER_FILE,
            Argument {
                name: "plot",
                kind: Kind::Flag,
                help: "Also plots the load profile",
            },
            JSON,
        ],
        more: &[],
    },
    CommandWords {
        name: "plot",
        about: "Plots the load profile of the readings file READINGS",
        notes: PLOT,
        arguments: &[
            Argument {
                name: "READINGS",
                kind: Kind::Wanted,
                help: "The readings file, or - for standard input",
            },
            Argument {
                name: "svg",
                kind: Kind::Flag,
                help: "Prints an SVG instead of plain text",
            },
            Argument {
                name: "json",
                kind: Kind::Flag,
                help: "Prints the curve as JSON",
            },
            Argument {
                name: "register",
                kind: Kind::Option("R"),
                help: "The register, as 1.8.0 [default: the first that changes]",
            },
            Argument {
                name: "from",
                kind: Kind::Option("TIME"),
                help: "Rows from this time on, as 2026-01-31T12:00:00",
            },
            Argument {
                name: "to",
                kind: Kind::Option("TIME"),
                help: "Rows up to this time",
            },
            Argument {
                name: "quiet",
                kind: Kind::Flag,
                help: "Prints no warnings",
            },
        ],
        more: &[],
    },
    CommandWords {
        name: "keys",
        about: "Makes or checks the file of frame counters of a client",
        notes: KEYS,
        arguments: &[
            Argument {
                name: "ACTION",
                kind: Kind::Wanted,
                help: "new or check",
            },
            Argument {
                name: "FILE",
                kind: Kind::Wanted,
                help: "The file of the client's settings",
            },
            Argument {
                name: "first",
                kind: Kind::Number("N", 0, 4_294_967_294),
                help: "With new: the first counter that is allowed [default: 0]",
            },
        ],
        more: &[],
    },
    CommandWords {
        name: "names",
        about: "Prints the objects whose name, alias or code has WORD in it",
        notes: NAMES,
        arguments: &[Argument {
            name: "WORD",
            kind: Kind::Wanted,
            help: "A part of a name or of a code, in any case",
        }],
        more: &[],
    },
    CommandWords {
        name: "man",
        about: "Prints the manual page",
        notes: MAN,
        arguments: &[],
        more: &[],
    },
    CommandWords {
        name: "completions",
        about: "Prints the completions of a shell",
        notes: COMPLETIONS,
        arguments: &[Argument {
            name: "SHELL",
            kind: Kind::Wanted,
            help: "bash, zsh or fish",
        }],
        more: &[],
    },
];
