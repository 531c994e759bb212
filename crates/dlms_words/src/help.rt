//! The help of the program, and the notes and examples of its commands.

/// The purpose of the program, for its help.
pub const ABOUT: &str = "A DLMS/COSEM electricity meter, and a head end that reads meters

Exit status: 0; 1 after a fault, named on standard error as in 'dlms: corrupt 1'; 2 if the arguments
are not valid, and for this help.";

/// The notes of `format`.
pub const FORMAT: &str =
    "A FILE that exists and is not empty is refused, unless --force is given and it holds a meter.
The demo day has 96 captures, a quarter of an hour apart.

Examples:
  dlms format meter.bin --demo
  dlms format meter.bin --demo-day --force";

/// The notes of `replay`.
pub const REPLAY: &str =
    "Lines: '> HEX' delivers bytes, 'P CHANNEL COUNT' pulses, 'M SECOND' the meter's running second,
'I' silence on the line, 'O' closes the meter and recovers it, 'S' asks for its state.

Examples:
  printf 'P 0 42\\nM 900\\nS\\n' | dlms replay meter.bin
  dlms replay < transcript.txt";

/// The notes of `loopback`.
pub const LOOPBACK: &str =
    "The meter gets 42 pulses, captures at 900 and 1800 seconds, and is polled over TCP on 127.0.0.1.
It is polled again after each power failure.

Examples:
  dlms loopback
  dlms loopback --readings readings.csv --stops 2";

/// The notes of `serve`.
pub const SERVE: &str =
    "Serves one client after another until it is killed. What was answered with success survives that.
Set a serial line up first, as with: stty -F /dev/ttyUSB0 9600 raw -echo

Examples:
  dlms serve meter.bin --load 3000
  dlms serve meter.bin --line /dev/ttyUSB0 --quiet";

/// The notes of `listen`.
pub const LISTEN: &str =
    "Reads data and event notifications in HDLC frames or messages of the wrapper, until it is killed.
Damaged frames are skipped and counted. Set a serial line up first, as for serve.

Examples:
  dlms listen /dev/ttyUSB0
  dlms listen --listen 0.0.0.0:4059 --keys keys.toml --json";

/// The notes of `poll`.
pub const POLL: &str =
    "Prints a line clock,r0,r1,r2 for each new row. With --readings it asks for rows from FILE's last row
on, and files the new ones: a power failure leaves either the old file or the new one.
Without --secret-file management sends 12345678 over HDLC, and the reader 23456789.
Over a slow line --rows-per-request files part after part: a poll that is cut off keeps what it filed.

Examples:
  dlms poll 127.0.0.1:4059 --readings readings.csv
  dlms poll wrapper://meter.example:4059 --security client.toml --deadline 60";

/// The notes of `collect`.
pub const COLLECT: &str =
    "Each line of LIST is NAME PLACE, and if needed client=, server=, carrier=, secret-file=, security= or
expect=, the logical device name. The rows of a meter go to NAME.csv in DIR, and are printed after its
name. With --get its values are printed so instead, and nothing is filed; with --clock its time, and
the seconds by which it is ahead; with --set also the correction, and both after it.

Examples:
  dlms collect meters.txt --readings readings --every 900 --failed failed.txt
  dlms collect meters.txt --get 1.8.0,clock --json
  dlms collect meters.txt --clock --set --client 1 --secret-file secret";

/// The notes of `get`.
pub const GET: &str =
    "A name is a code, in full or short, or a word that 'dlms names' knows; after it the attribute's
number as /3 [default: 2]. A register's number is printed with its scaler and unit.

Examples:
  dlms get 127.0.0.1:4059 1.8.0,clock
  dlms get wrapper://127.0.0.1:4059 1-0:99.1.0*255/3 --class 7 --json";

/// The notes of `list`.
pub const LIST: &str =
    "Prints each object with its class, and the rights of this association: r, w and x after a number if
the attribute may be read or set, or the method called; a if authentication is required.

Examples:
  dlms list 127.0.0.1:4059
  dlms list 127.0.0.1:4059 --long --client 1 --secret-file secret";

/// The notes of `profile`.
pub const PROFILE: &str =
    "A TIME is a date, or a date and a time, in the meter's own time; a date alone is all of that day.

Examples:
  dlms profile 127.0.0.1:4059 --client 1 --secret-file secret --from 2026-01-01 --csv
  dlms profile 127.0.0.1:4059 1-0:98.1.0*255 --client 1 --secret-file secret --last 12";

/// The notes of `clock`.
pub const CLOCK: &str =
    "With --set a clock that is off is shifted, or set if that is not possible, and compared again.

Examples:
  dlms clock 127.0.0.1:4059
  dlms clock 127.0.0.1:4059 --set --client 1 --secret-file secret";

/// The notes of `set`.
pub const SET: &str =
    "VALUE is a number, a text, true, false, null, a time as 2026-01-31T12:00:00Z, or now. Its type is
the attribute's, unless one is given: u8: to u64:, i8: to i64:, enum:, bool:, text:, visible:, utf8:,
hex:, raw:, text-file:PATH or octets-file:PATH. Give a secret by a file: others see command lines.

Examples:
  dlms set 127.0.0.1:4059 clock now --client 1 --secret-file secret
  dlms set 127.0.0.1:4059 1.0.99.1.0.255/4 u32:900 --client 1 --secret-file secret";

/// The notes of `act`.
pub const ACT: &str =
    "NAME has the number of the method after a slash. VALUE needs a type, as i8:0, and is given as in set.

Examples:
  dlms act 127.0.0.1:4059 1.0.1.8.0.255/1 i8:0 --client 1 --secret-file secret
  dlms act 127.0.0.1:4059 0.0.10.0.0.255/1 u16:1 --client 1 --secret-file secret";

/// The notes of `explain`.
pub const EXPLAIN: &str =
    "Reads a capture (pcap, pcapng), or lines as '> HEX' to a meter and '< HEX' from it, TX and RX, or send
and recv, with any words before. No secret is printed; --raw prints strings that may be one.
The file of --html contains the whole log, with its secrets, for a browser.

Examples:
  dlms explain line.log
  dlms explain traffic.pcapng --short --keys stations.toml
  dlms explain line.log --html report.html";

/// The notes of `show`.
pub const SHOW: &str =
    "Prints each page, which slot counts, the journal's events, what a recovery would do, and the rows.
Changes nothing in FILE, and prints no secret.

Examples:
  dlms show meter.bin
  dlms show meter.bin --plot";

/// The notes of `plot`.
pub const PLOT: &str =
    "The curve is the power between neighboring captures; it is broken where captures are missing.

Examples:
  dlms plot readings.csv
  dlms plot readings.csv --svg --register 1.8.0 --from 2026-01-01 > curve.svg";

/// The notes of `keys`.
pub const KEYS: &str =
    "FILE is a TOML text that only its owner may read: title, encryption-key, authentication-key, policy,
messages, dedicated and counters. A key that was used before needs --first, above each used counter.

Examples:
  dlms keys new client.toml
  dlms keys check client.toml";

/// The notes of `names`.
pub const NAMES: &str =
    "Prints the code, the alias, the class and the name of each; get and set take the code or the alias.

Examples:
  dlms names clock
  dlms names 1.8";

/// The notes of `man`.
pub const MAN: &str = "Examples:
  dlms man | man -l -
  dlms man > /usr/local/share/man/man1/dlms.1";

/// The notes of `completions`.
pub const COMPLETIONS: &str = "Examples:
  source <(dlms completions bash)
  dlms completions fish > ~/.config/fish/completions/dlms.fish";
