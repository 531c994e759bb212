//! The jobs of the program.

use dlms_frame::Client;

/// The meter, and the way to it: the options that a poll and the requests share.
#[derive(Clone, Copy)]
pub struct MeterOptions<'a> {
    /// Where the meter is, as `HOST:PORT`, `/dev/..` or `wrapper://HOST:PORT`.
    pub place: &'a str,
    /// The meter's address as it was written: `UPPER[/LOWER]`, or its wrapper port.
    pub server: Option<&'a str>,
    /// Whether its address has four octets in any case.
    pub wide: bool,
    /// How many octets of information the meter may send in a frame, 128 to 2,030, if that is proposed.
    pub information: Option<u32>,
    /// Whether the line carries the TCP wrapper in place of HDLC.
    pub wrapper: bool,
    /// The file of the client's secret, if one is given.
    pub secret_file: Option<&'a str>,
    /// The file of the client's keys, if the association is to be protected.
    pub security: Option<&'a str>,
    /// The object that has the last frame counter that the meter accepted from the client, if it is to be read.
    pub counter_from: Option<&'a str>,
    /// For how many seconds an answer is waited for.
    pub timeout: u32,
    /// How many times a meter that does not answer is called again, if that is given.
    pub retries: Option<u32>,
}

/// The meter to ask, and the client that asks. Without a file of its secret, none is sent.
#[derive(Clone, Copy)]
pub struct Asking<'a> {
    pub meter: MeterOptions<'a>,
    /// The client's address, 1 to 127.
    pub client: u32,
    /// Whether the frames are explained.
    pub verbose: bool,
    /// How many octets the encoding of a value from the meter has at most.
    pub most: u32,
}

/// The texts of an option that was given several times, in order. `fifth` exists to be refused: at most four are accepted.
#[derive(Clone, Copy)]
pub struct Expecting<'a> {
    pub first: Option<&'a str>,
    pub second: Option<&'a str>,
    pub third: Option<&'a str>,
    pub fourth: Option<&'a str>,
    pub fifth: Option<&'a str>,
}

/// How a value is printed: as text, as its encoding, or as JSON.
#[derive(Clone, Copy, PartialEq, Eq)]
pub enum ValueFormat {
    Text,
    Encoding,
    Json,
}

/// How a profile is printed: as a table, as CSV, or as JSON.
#[derive(Clone, Copy, PartialEq, Eq)]
pub enum TableFormat {
    Table,
    Csv,
    Json,
}

/// How an object list or an explanation is printed: as text, or as JSON.
#[derive(Clone, Copy, PartialEq, Eq)]
pub enum OutputFormat {
    Text,
    Json,
}

/// When an explanation is colored: on a terminal, always, or never.
#[derive(Clone, Copy, PartialEq, Eq)]
pub enum ColorChoice {
    Auto,
    Always,
    Never,
}

/// A shell that the program makes completions for.
#[derive(Clone, Copy, PartialEq, Eq)]
pub enum Shell {
    Bash,
    Zsh,
    Fish,
}

/// The options of `format`.
#[derive(Clone, Copy)]
pub struct FormatOptions<'a> {
    /// The file of the new meter.
    pub file: &'a str,
    /// Whether the meter gets a day of captures.
    pub demo: bool,
    /// Whether the meter gets the day of captures that ended at the last midnight (UTC) of the system's clock.
    pub demo_day: bool,
    /// Whether a file that holds a meter is formatted all the same.
    pub force: bool,
}

/// The options of `loopback`.
#[derive(Clone, Copy)]
pub struct LoopbackOptions<'a> {
    /// The readings file, if one is given.
    pub readings: Option<&'a str>,
    /// How many times the power fails; the meter is polled after each failure.
    pub stops: u8,
}

/// The options of `serve`.
#[derive(Clone, Copy)]
pub struct ServeOptions<'a> {
    /// The meter's file.
    pub file: &'a str,
    /// The address to listen on, if one is given.
    pub listen: Option<&'a str>,
    /// The device of the serial line, if one is given.
    pub line: Option<&'a str>,
    /// Whether the port carries the TCP wrapper in place of HDLC.
    pub wrapper: bool,
    /// The load in watts, which makes pulses.
    pub load: u32,
    /// The seconds of the clock are reported to the meter in steps of this many.
    pub tick: u32,
    /// Whether nothing is printed about connections.
    pub quiet: bool,
    /// If another connection waits, one is closed after this many seconds without an answered frame of an association.
    pub idle: u32,
    /// A connection is closed, whatever it does, once another one has waited for this many seconds.
    pub turn: u32,
    /// A connection is closed after this many seconds without an answered frame.
    pub inactivity: u32,
}

/// The options of `listen`.
#[derive(Clone, Copy)]
pub struct ListenOptions<'a> {
    /// The device of the serial line, or standard input, if one is given.
    pub line: Option<&'a str>,
    /// The address to listen on, if one is given.
    pub listen: Option<&'a str>,
    /// The file with the keys that open ciphered notifications.
    pub keys: Option<&'a str>,
    /// The names of the values to print as CSV, if they are given.
    pub csv: Option<&'a str>,
    /// The folder of the readings files, if one is given.
    pub readings: Option<&'a str>,
    /// The number of notifications after which it ends, if one is given.
    pub count: Option<u32>,
    /// Whether nothing is printed about what is skipped or refused.
    pub quiet: bool,
    pub format: OutputFormat,
}

/// The options of `poll`.
#[derive(Clone, Copy)]
pub struct PollOptions<'a> {
    pub meter: MeterOptions<'a>,
    /// The readings file, if one is given.
    pub readings: Option<&'a str>,
    /// The client that polls, unless an address is given.
    pub client: Client,
    /// The address of the client that polls, 1 to 127, if one is given.
    pub sap: Option<u32>,
    /// How many seconds the poll may take.
    pub deadline: u32,
    /// How many rows one request asks for at most, if the poll is to be done in parts.
    pub rows: Option<u32>,
    /// By how many seconds a row's clock may be ahead of the system's, if that is checked.
    pub ahead: Option<u32>,
    /// Whether each row has to be later than the one before it.
    pub strict: bool,
    /// Only a meter whose objects show these texts is polled.
    pub expecting: Expecting<'a>,
    /// Whether nothing is printed about rows that are left out, and the like.
    pub quiet: bool,
    pub format: OutputFormat,
}

/// The options of `collect`.
#[derive(Clone, Copy)]
pub struct CollectOptions<'a> {
    /// The file with the list of meters.
    pub list: &'a str,
    /// The folder of the readings files, if meters are polled.
    pub readings: Option<&'a str>,
    /// The names of the attributes that are requested instead, with commas between them.
    pub get: Option<&'a str>,
    /// Whether clocks are compared instead.
    pub clock: bool,
    /// Whether those are set that are off by more than the threshold.
    pub set: bool,
    /// By how many seconds a clock may be off that is not set.
    pub threshold: u32,
    /// The file of the client's secret, for meters whose line names none.
    pub secret_file: Option<&'a str>,
    /// The address of the client, 1 to 127, for meters whose line names none, if one is given.
    pub client: Option<u32>,
    /// How many meters are polled at once at most.
    pub at_once: u32,
    /// How many seconds the poll of a meter may take.
    pub deadline: u32,
    /// The seconds from the beginning of a round to the next, if there is more than one round.
    pub every: Option<u32>,
    /// How many times a meter is polled again in a round after a poll that failed.
    pub retries: u32,
    /// The file for the list of meters that failed, if one is given.
    pub failed: Option<&'a str>,
    /// Whether no progress is shown.
    pub quiet: bool,
    pub format: OutputFormat,
}

/// The options of `get`.
#[derive(Clone, Copy)]
pub struct GetOptions<'a> {
    pub asking: Asking<'a>,
    /// The names of the attributes, with commas between them.
    pub names: &'a str,
    /// The class of their objects; 0 if it is to be found.
    pub class: u32,
    pub format: ValueFormat,
}

/// The options of `list`.
#[derive(Clone, Copy)]
pub struct ListOptions<'a> {
    pub asking: Asking<'a>,
    pub format: OutputFormat,
    /// Whether the attributes and methods are listed by their names, one a line.
    pub long: bool,
    /// Whether no progress is shown.
    pub quiet: bool,
}

/// The options of `profile`.
#[derive(Clone, Copy)]
pub struct ProfileOptions<'a> {
    pub asking: Asking<'a>,
    /// The name of the profile, if one is given.
    pub name: Option<&'a str>,
    /// The time of the first row, if one is given.
    pub from: Option<&'a str>,
    /// The time of the last row, if one is given.
    pub to: Option<&'a str>,
    /// How many of the last rows are printed, if not all of them are.
    pub last: Option<u32>,
    pub format: TableFormat,
    /// Whether values are printed as the meter sends them, without their scalers and units.
    pub raw: bool,
    /// Whether no progress is shown.
    pub quiet: bool,
}

/// The options of `clock`.
#[derive(Clone, Copy)]
pub struct ClockOptions<'a> {
    pub asking: Asking<'a>,
    /// Whether the clock is set.
    pub set: bool,
    /// By how many seconds a clock may be off that is not set.
    pub threshold: u32,
    pub format: OutputFormat,
}

/// The options of `set`.
#[derive(Clone, Copy)]
pub struct SetOptions<'a> {
    pub asking: Asking<'a>,
    /// The attribute's name.
    pub name: &'a str,
    /// Its new value.
    pub value: &'a str,
    /// The class of its object; 0 if it is to be found.
    pub class: u32,
    pub format: OutputFormat,
}

/// The options of `act`.
#[derive(Clone, Copy)]
pub struct ActOptions<'a> {
    pub asking: Asking<'a>,
    /// The method's name.
    pub name: &'a str,
    /// Its parameter, if one is given.
    pub value: Option<&'a str>,
    /// The class of its object; 0 if it is to be found.
    pub class: u32,
    pub format: OutputFormat,
}

/// The options of `explain`.
#[derive(Clone, Copy)]
pub struct ExplainOptions<'a> {
    /// The file with the frames; standard input if none is given.
    pub file: Option<&'a str>,
    /// Whether strings that may be a secret are printed.
    pub raw: bool,
    /// Whether each frame takes one line.
    pub short: bool,
    /// Whether each frame's octets are printed beside it.
    pub hex: bool,
    pub format: OutputFormat,
    /// The file with the keys that open ciphered APDUs.
    pub keys: Option<&'a str>,
    pub color: ColorChoice,
    /// The file of the report, if one is wanted instead of a text.
    pub html: Option<&'a str>,
    /// The page that the report is made of.
    pub page: Option<&'a str>,
    /// Whether no progress is shown.
    pub quiet: bool,
}

/// The options of `show`.
#[derive(Clone, Copy)]
pub struct ShowOptions<'a> {
    /// The meter's file.
    pub file: &'a str,
    /// Whether the curve of the load profile is printed.
    pub plot: bool,
    pub format: OutputFormat,
}

/// The options of `keys`.
#[derive(Clone, Copy)]
pub struct KeysOptions<'a> {
    /// What is to be done: `new` or `check`.
    pub action: &'a str,
    /// The file of settings.
    pub file: &'a str,
    /// The first frame counter that may be used.
    pub first: u32,
}

/// The options of `plot`.
#[derive(Clone, Copy)]
pub struct PlotOptions<'a> {
    /// The readings file.
    pub readings: &'a str,
    /// Whether the curve is an SVG; otherwise it is as `format` says. `format` comes first if it is JSON.
    pub svg: bool,
    pub format: OutputFormat,
    /// The name of the register whose curve is plotted; the first one that changes, if none is given.
    pub register: Option<&'a str>,
    /// The time of the first row, if one is given.
    pub from: Option<&'a str>,
    /// The time of the last row, if one is given.
    pub to: Option<&'a str>,
    /// Whether no warning is printed.
    pub quiet: bool,
}

/// The work that the program is asked to do.
#[derive(Clone, Copy)]
pub enum Job<'a> {
    /// Makes a new meter in a file.
    Format(FormatOptions<'a>),
    /// Replays standard input on the meter in this file, or on a new one in memory.
    Replay(Option<&'a str>),
    /// Polls a new meter in memory over a socket, and again after each power failure of the meter.
    Loopback(LoopbackOptions<'a>),
    /// Serves the meter in a file on a TCP port or on a serial line.
    Serve(ServeOptions<'a>),
    /// Prints what meters send by themselves.
    Listen(ListenOptions<'a>),
    /// Polls a meter once, into a readings file if one is given.
    Poll(PollOptions<'a>),
    /// Polls the meters of a list, many at once, each into a readings file of its own.
    Collect(CollectOptions<'a>),
    /// Prints attributes of a meter.
    Get(GetOptions<'a>),
    /// Lists a meter's objects.
    List(ListOptions<'a>),
    /// Prints rows of a meter's profile.
    Profile(ProfileOptions<'a>),
    /// Compares a meter's clock with the system's, and sets it if that is asked for.
    Clock(ClockOptions<'a>),
    /// Sets an attribute of a meter.
    Set(SetOptions<'a>),
    /// Calls a method of a meter.
    Act(ActOptions<'a>),
    /// Explains frames.
    Explain(ExplainOptions<'a>),
    /// Shows the contents of a meter's file.
    Show(ShowOptions<'a>),
    /// Plots the load profile of a readings file.
    Plot(PlotOptions<'a>),
    /// Makes or shows the file of frame counters that a file of settings names.
    Keys(KeysOptions<'a>),
    /// Prints the names, codes and classes of objects that a word matches.
    Names(&'a str),
    /// Prints the manual page.
    Man,
    /// Prints the completions for a shell.
    Completions(Shell),
}
