//! Why a run ended early, and its message: its name in the first line, where and why in the second, and in a third what to do, if
//! something can be done.
use crate::columns::Columns;
use dlms_buffer::BufferFault;
use dlms_call::CallFault;
use dlms_client::{Denial, Fault as Talked};
use dlms_counters::{CounterFault, OpenFault as NotOpened};
use dlms_ends::RunFault;
use dlms_guards::GuardFault;
use dlms_headend::{ColumnList, PollFault, ReadingsFault};
use dlms_identity::Expected;
use dlms_keys::{CountersFault, FileFault, SettingsFault, StationsFault};
use dlms_lines::{ClockFault, FieldFault};
use dlms_names::{
    access_result, action_result, diagnostic, initiate_error, service_error, state_error,
};
use dlms_plot::PlotFault;
use dlms_program::ReplayFault;
use dlms_secured::SecuredFault;
use dlms_security::{ProtectFault, UnprotectFault};
use dlms_store::{AddFault, OpenFault};
use std::alloc::{AllocError, AllocFailed, Global};
use std::io::ErrorKind;
use std::{fmt, io};

/// The diagnostic of a secret that is another (IEC 62056-5-3, authentication-failure).
const AUTHENTICATION_FAILURE: u8 = 13;

/// A message that is not newer than those of earlier associations.
const STALE: SecuredFault = SecuredFault::Message(UnprotectFault::OldCounter);

/// Why a run ended early.
#[derive(Drop)]
pub enum Fault<'a> {
    /// A call of the system for this file, this address or this stream failed, for which the system has these words.
    System(&'a str, String),
    /// The output failed; why it keeps itself.
    Output,
    /// The contents of this place can no longer be read.
    Input(&'a str),
    /// The meter could not be made or recovered, or its device failed: that in this file, or one in memory.
    Open(Option<&'a str>, OpenFault),
    /// The replay ended early.
    Replay(ReplayFault),
    /// The loopback, or the meter that serves, ended early.
    Run(RunFault),
    /// The poll of this address failed.
    Poll(&'a str, PollFault),
    /// The meter at this address has these columns, which are others than those of a readings file.
    Columns(&'a str, ColumnList),
    /// In this file the line of this number is not a line of readings.
    Readings(&'a str, usize),
    /// This page for a report cannot be read, for which the system has these words.
    NoPage(&'a str, String),
    /// This is not the page for reports: it has no place for a log, or several.
    Page(&'a str),
    /// This file has no row of the chosen time.
    NoRows(&'a str),
    /// This is no register of a readings file.
    Register(&'a str),
    /// The secret in this file has more than 16 bytes.
    Secret(&'a str),
    /// The address did not accept a connection within this many seconds.
    Late(&'a str, u32),
    /// The poll of this address was not done within its deadline, this many seconds.
    Overdue(&'a str, u32),
    /// One of the rows from this address or file is refused for its clock.
    Clock(&'a str, ClockFault),
    /// This is no `NAME=TEXT`, or one too many.
    Expect(&'a str),
    /// The meter at this place does not show this text.
    Stranger(&'a str, Expected<'a>),
    /// This is no name of an attribute or a method.
    Name(&'a str),
    /// These are more names than may be requested of each meter of a list.
    Names(&'a str),
    /// No object has this word in its code, its alias or its name.
    Unnamed(&'a str),
    /// This is no address of a meter.
    Server(&'a str),
    /// This is no wrapper port of a meter.
    Port(&'a str),
    /// This place names a carrier that is unknown, that the line cannot have, or that the options exclude.
    Place(&'a str),
    /// This is no value.
    Value(&'a str),
    /// This is no value of the attribute's type, which has this meaning.
    Unfit(&'a str, &'a str),
    /// The type of the attribute of this name is not known, or no text is written in it.
    Untyped(&'a str),
    /// The object of this name is not in the object list.
    Class(&'a str),
    /// What was asked for by this name has this result, an action's or an access's.
    Result(&'a str, u8, bool),
    /// What was asked for by this name is not served.
    Denied(&'a str, Denial),
    /// The talk with the meter at this place ended early.
    Call(&'a str, CallFault),
    /// The value of this name has more than this many octets.
    Large(&'a str, u32),
    /// The value in this file has too many bytes.
    File(&'a str),
    /// This is nothing that `keys` does.
    Action(&'a str),
    /// The settings in this file are refused.
    Keys(&'a str, FileFault),
    /// The file of frame counters that this file of settings names was not made or opened.
    Counters(&'a str, CountersFault),
    /// A call of the system failed for that file, in these words.
    CountersSystem(&'a str, String),
    /// The file of frame counters that this file of settings names could not be kept.
    Stored(&'a str, CounterFault),
    /// The security layer ended the association with the meter at this place.
    Security(&'a str, SecuredFault),
    /// The system's clock shows what no meter's clock can.
    Now,
    /// This is no time.
    Time(&'a str),
    /// The line of this number in this list of meters is refused, for these words.
    List(&'a str, usize, String),
    /// This many meters of a list were not polled.
    Failed(usize),
    /// The profile of this name has no clock among its columns.
    NoClock(&'a str),
    /// The meter at this place does not capture rows by time.
    NoPeriod(&'a str),
    /// A poll in parts has no file to go on from.
    Unfiled,
    /// The columns or the rows of the profile of this name cannot be read.
    Buffer(&'a str, BufferFault),
}

impl<'a> Fault<'a> {
    /// Want of memory.
    pub const MEMORY: Fault<'static> = Fault::Replay(ReplayFault::Memory);

    /// The fault of a file, an address or a stream for which a call of the system failed.
    pub fn of_system(alloc: Global, place: &'a str, error: &io::Error) -> Fault<'a> {
        if error.kind() == ErrorKind::OutOfMemory {
            return Fault::MEMORY;
        }
        match format!(in alloc; "{error}") {
            Ok(words) => Fault::System(place, words),
            Err(_) => Fault::MEMORY,
        }
    }

    /// The fault of the page for a report, for which a call of the system failed.
    pub fn of_page(alloc: Global, page: &'a str, error: &io::Error) -> Fault<'a> {
        match Fault::of_system(alloc, page, error) {
            Fault::System(page, words) => Fault::NoPage(page, words),
            fault => fault,
        }
    }

    /// The fault of a file of frame counters, named by this file of settings, for which a call of the system failed.
    pub fn of_counters(alloc: Global, file: &'a str, error: &io::Error) -> Fault<'a> {
        match Fault::of_system(alloc, file, error) {
            Fault::System(file, words) => Fault::CountersSystem(file, words),
            fault => fault,
        }
    }

    /// The fault of the file of frame counters that this file of settings names.
    pub fn of_counters_file(alloc: Global, file: &'a str, fault: CountersFault) -> Fault<'a> {
        match fault {
            CountersFault::System(error) => Fault::of_counters(alloc, file, &error),
            fault => Fault::Counters(file, fault),
        }
    }

    /// The fault of a file of settings or keys.
    pub fn of_keys(alloc: Global, file: &'a str, fault: FileFault) -> Fault<'a> {
        match fault {
            FileFault::System(error) => Fault::of_system(alloc, file, &error),
            fault => Fault::Keys(file, fault),
        }
    }

    /// The fault of a guard for an association with the meter at this place, by this file of settings.
    pub fn of_guard(alloc: Global, place: &'a str, file: &'a str, fault: GuardFault) -> Fault<'a> {
        match fault {
            GuardFault::Settings(fault) => Fault::of_keys(alloc, file, fault),
            GuardFault::Counters(fault) => Fault::of_counters_file(alloc, file, fault),
            GuardFault::Stored(fault) => Fault::Stored(file, fault),
            GuardFault::Random(error) => Fault::of_system(alloc, file, &error),
            GuardFault::Stale => Fault::Security(place, STALE),
            GuardFault::Memory => Fault::MEMORY,
        }
    }

    /// The fault of a profile's columns or rows.
    pub fn of_buffer(name: &'a str, fault: BufferFault) -> Fault<'a> {
        match fault {
            BufferFault::Memory => Fault::MEMORY,
            fault => Fault::Buffer(name, fault),
        }
    }

    /// The fault of a poll of the meter at this place into this file.
    pub fn of_poll(place: &'a str, readings: Option<&'a str>, fault: RunFault) -> Fault<'a> {
        match (fault, readings) {
            (RunFault::Readings(ReadingsFault::Line(number)), Some(file)) => {
                Fault::Readings(file, number)
            }
            (RunFault::Poll(fault), _) => Fault::Poll(place, fault),
            (RunFault::Columns(list), _) => Fault::Columns(place, list),
            (RunFault::Insecure(fault), _) => Fault::Security(place, fault),
            (fault, _) => Fault::Run(fault),
        }
    }

    /// The fault of a meter in this file that serves.
    fn of_serving(file: &'a str, fault: RunFault) -> Fault<'a> {
        match fault {
            RunFault::Add(AddFault::Device) => Fault::Open(Some(file), OpenFault::Device),
            RunFault::Add(AddFault::Exhausted) => Fault::Open(Some(file), OpenFault::Exhausted),
            fault => Fault::Run(fault),
        }
    }

    /// The fault of `serve`.
    pub fn of_serve(alloc: Global, file: &'a str, fault: FieldFault<'a>) -> Fault<'a> {
        match fault {
            FieldFault::System(place, error) => Fault::of_system(alloc, place, &error),
            FieldFault::Secret => Fault::Secret(file),
            FieldFault::Late(address, seconds) => Fault::Overdue(address, seconds),
            FieldFault::Clock(place, fault) => Fault::Clock(place, fault),
            FieldFault::Stranger(place, expected) => Fault::Stranger(place, expected),
            FieldFault::Unasked(place, fault) => Fault::of_call(place, fault),
            FieldFault::Other(fault) => Fault::of_serving(file, fault),
        }
    }

    /// The fault of `poll`, of this address, into this file, with the secret in that one.
    pub fn of_field(
        alloc: Global,
        address: &'a str,
        readings: Option<&'a str>,
        secret_file: Option<&'a str>,
        fault: FieldFault<'a>,
    ) -> Fault<'a> {
        match fault {
            FieldFault::System(place, error) => Fault::of_system(alloc, place, &error),
            FieldFault::Secret => Fault::Secret(secret_file.unwrap_or("")),
            FieldFault::Late(address, seconds) => Fault::Overdue(address, seconds),
            FieldFault::Clock(place, fault) => Fault::Clock(place, fault),
            FieldFault::Stranger(place, expected) => Fault::Stranger(place, expected),
            FieldFault::Unasked(place, fault) => Fault::of_call(place, fault),
            FieldFault::Other(fault) => Fault::of_poll(address, readings, fault),
        }
    }

    /// The fault of a talk with the meter at this place.
    pub fn of_call(place: &'a str, fault: CallFault) -> Fault<'a> {
        match fault {
            CallFault::Talk(
                Talked::Refused {
                    diagnostic,
                    initiate: None,
                },
            ) => Fault::Poll(place, PollFault::Refused(diagnostic)),
            CallFault::Talk(Talked::Line) => Fault::Poll(place, PollFault::Line),
            CallFault::Talk(Talked::Denied(denial)) => Fault::Denied(place, denial),
            CallFault::Talk(Talked::Memory) | CallFault::Memory => Fault::MEMORY,
            CallFault::Insecure(fault) => Fault::Security(place, fault),
            fault => Fault::Call(place, fault),
        }
    }

    /// The fault of a curve of this file.
    pub fn of_plot(readings: &'a str, fault: PlotFault) -> Fault<'a> {
        match fault {
            PlotFault::Readings(ReadingsFault::Line(number)) => Fault::Readings(readings, number),
            PlotFault::Readings(ReadingsFault::Memory) | PlotFault::Memory => Fault::MEMORY,
            PlotFault::NoRows => Fault::NoRows(readings),
            PlotFault::Output => Fault::Output,
        }
    }

    /// The place that its message names first: a file, an address, an object's name or an argument; `None` if it names none.
    pub fn place(&self) -> Option<&'a str> {
        match self {
            Fault::System(place, _)
            | Fault::Input(place)
            | Fault::Open(Some(place), _)
            | Fault::Poll(place, _)
            | Fault::Columns(place, _)
            | Fault::Readings(place, _)
            | Fault::Secret(place)
            | Fault::Late(place, _)
            | Fault::Overdue(place, _)
            | Fault::Clock(place, _)
            | Fault::Expect(place)
            | Fault::Stranger(place, _)
            | Fault::Name(place)
            | Fault::Names(place)
            | Fault::Unnamed(place)
            | Fault::Unfit(place, _)
            | Fault::Untyped(place)
            | Fault::Server(place)
            | Fault::Port(place)
            | Fault::Place(place)
            | Fault::Value(place)
            | Fault::Class(place)
            | Fault::Result(place, _, _)
            | Fault::Denied(place, _)
            | Fault::Call(place, _)
            | Fault::Large(place, _)
            | Fault::File(place)
            | Fault::NoPage(place, _)
            | Fault::Page(place)
            | Fault::NoRows(place)
            | Fault::Register(place)
            | Fault::Action(place)
            | Fault::Keys(place, _)
            | Fault::Counters(place, _)
            | Fault::CountersSystem(place, _)
            | Fault::Stored(place, _)
            | Fault::Security(place, _)
            | Fault::Time(place)
            | Fault::List(place, _, _)
            | Fault::NoClock(place)
            | Fault::NoPeriod(place)
            | Fault::Buffer(place, _) => Some(*place),
            _ => None,
        }
    }

    /// Whether it is of a stream, one of which the output may be.
    pub fn is_of_a_stream(&self) -> bool {
        matches!(
            self,
            Fault::Output | Fault::Replay(ReplayFault::Io) | Fault::Run(RunFault::Io)
        )
    }
}

impl From<AllocError> for Fault<'_> {
    fn from(_e: AllocError) -> Self {
        Fault::MEMORY
    }
}

impl<T: Drop> From<AllocFailed<T>> for Fault<'_> {
    fn from(_e: AllocFailed<T>) -> Self {
        Fault::MEMORY
    }
}

/// The text of an error without the system's number, which follows it.
fn without_number(words: &str) -> &str {
    match words.split_once(" (os error ") {
        Some((before, _)) => before,
        None => words,
    }
}

/// What to do about an error of the system in these words, as a further line; nothing for most. A meter that is busy with another client
/// closes a connection, or does not answer on it; one that is off has no port.
fn hint_of(words: &str) -> &'static str {
    match words {
        "Connection refused" => "\n  nothing listens there: look at the address and the port",
        "closed by the other end" | "Connection reset by peer" => {
            "\n  somebody is there: the meter may be busy with another client, or speak another protocol"
        }
        _ => "",
    }
}

/// Says why a meter in this file could not be opened, or does not go on.
fn write_open<W: fmt::Write>(
    f: &mut fmt::Formatter<W>,
    file: &str,
    fault: &OpenFault,
) -> fmt::Result {
    match fault {
        OpenFault::NoCheckpoint => write!(
            f,
            "\n  {file}: it contains no meter\n  dlms show prints what its pages contain"
        ),
        OpenFault::Corrupt(page) => {
            let page = *page;
            write!(
                f,
                "\n  {file}: page {page} is damaged, or does not fit\n  dlms show says which pages count"
            )
        }
        OpenFault::Device => write!(f, "\n  {file}: a call of the system failed"),
        OpenFault::Exhausted => write!(f, "\n  {file}: it accepts no further checkpoint"),
        OpenFault::Size => write!(f, "\n  {file}: it has too few pages"),
        OpenFault::Memory => Ok(()),
    }
}

/// Says what became of the poll of this address.
fn write_poll<W: fmt::Write>(
    f: &mut fmt::Formatter<W>,
    address: &str,
    fault: &PollFault,
) -> fmt::Result {
    match fault {
        PollFault::Refused(number) => {
            let name = diagnostic(*number).unwrap_or("for a reason without a name");
            write!(f, "\n  {address}: the association is refused, {name}")?;
            if *number == AUTHENTICATION_FAILURE {
                f.write_str(
                    "\n  --secret-file names the file with the client's secret, --security the one with its keys",
                )?;
            }
            Ok(())
        }
        PollFault::Result(number) => {
            let name = access_result(*number).unwrap_or("a result without a name");
            write!(f, "\n  {address}: the meter answers {name}")
        }
        PollFault::Line => write!(f, "\n  {address}: nobody answers"),
        PollFault::Protocol => write!(
            f,
            "\n  {address}: an answer has another form, or the link went down"
        ),
        PollFault::Columns => write!(f, "\n  {address}: the meter has other columns"),
        PollFault::Memory => Ok(()),
    }
}

/// Says which row is refused for its clock.
fn write_clock<W: fmt::Write>(
    f: &mut fmt::Formatter<W>,
    place: &str,
    fault: &ClockFault,
) -> fmt::Result {
    match fault {
        ClockFault::Fallen(number) => {
            let number = *number;
            write!(
                f,
                "clock {number}\n  {place}: the row is not later than the one before it"
            )
        }
        ClockFault::Ahead(number) => {
            let number = *number;
            write!(
                f,
                "ahead {number}\n  {place}: the row is too far past the system's clock"
            )
        }
    }
}

/// Says why a meter does not serve what was asked for.
fn write_denied<W: fmt::Write>(
    f: &mut fmt::Formatter<W>,
    name: &str,
    denial: &Denial,
) -> fmt::Result {
    match denial {
        Denial::Exception { state, service } => {
            let number = *service;
            let state = state_error(*state).unwrap_or("an error of its state");
            let service = service_error(*service).unwrap_or("an error of the service");
            write!(
                f,
                "denied {number}\n  {name}: the meter answers {state}, {service}"
            )
        }
        Denial::ServiceError { value, .. } => {
            let value = *value;
            write!(
                f,
                "denied {value}\n  {name}: the meter answers with a confirmed service error"
            )
        }
    }
}

/// Says why a talk with the meter at this place ended early.
fn write_call<W: fmt::Write>(
    f: &mut fmt::Formatter<W>,
    place: &str,
    fault: &CallFault,
) -> fmt::Result {
    match fault {
        CallFault::Talk(Talked::Unread(fault)) => {
            write!(f, "protocol\n  {place}: an answer cannot be read: {fault}")
        }
        CallFault::Talk(Talked::Refused { initiate, .. }) => {
            let name = match initiate {
                Some(code) => initiate_error(*code).unwrap_or("another"),
                None => "another",
            };
            write!(
                f,
                "protocol\n  {place}: the association is refused, initiate error {name}"
            )
        }
        CallFault::Talk(fault) => write!(f, "protocol\n  {place}: {fault}"),
        CallFault::TooLong => write!(
            f,
            "long\n  {place}: the value is longer than the meter accepts"
        ),
        CallFault::TooLarge => write!(
            f,
            "large\n  {place}: the value is longer than --most allows"
        ),
        CallFault::Io => write!(f, "io\n  {place}: the line failed"),
        CallFault::Insecure(fault) => write_security(f, place, fault),
        CallFault::Memory => f.write_str("memory"),
    }
}

/// Says which text the meter at this place does not show.
fn write_stranger<W: fmt::Write>(
    f: &mut fmt::Formatter<W>,
    place: &str,
    expected: &Expected<'_>,
) -> fmt::Result {
    let [a, b, c, d, e, last] = expected.name;
    let text = expected.text;
    write!(
        f,
        "expect\n  {place}: {a}.{b}.{c}.{d}.{e}.{last} does not show {text}: nothing is filed\n  dlms get prints what it shows"
    )
}

/// Names the setting that is missing or invalid, and the values that it may have. No value is written, since it could be a key.
fn write_setting<W: fmt::Write>(f: &mut fmt::Formatter<W>, fault: &SettingsFault) -> fmt::Result {
    match fault {
        SettingsFault::Missing(setting) => {
            let name = setting.name();
            write!(f, "{name} is missing")
        }
        SettingsFault::Invalid(setting) => {
            let name = setting.name();
            let meaning = setting.meaning();
            write!(f, "{name} is invalid: {meaning} is expected")
        }
        fault => write!(f, "{fault}"),
    }
}

/// Says why a file of settings or of stations is refused.
fn write_keys<W: fmt::Write>(
    f: &mut fmt::Formatter<W>,
    file: &str,
    fault: &FileFault,
) -> fmt::Result {
    write!(f, "keys\n  {file}: ")?;
    match fault {
        FileFault::Settings(fault) => write_setting(f, fault),
        FileFault::Stations(StationsFault::At(number, fault)) => {
            write!(f, "station {number}: ")?;
            write_setting(f, fault)
        }
        fault => write!(f, "{fault}"),
    }
}

/// Why counters could not be kept.
fn write_stored<W: fmt::Write>(
    f: &mut fmt::Formatter<W>,
    file: &str,
    fault: &CounterFault,
) -> fmt::Result {
    let why = match fault {
        CounterFault::Full => "it has no room for another meter",
        CounterFault::Exhausted => "all counters are reserved: replace the key",
        _ => "its device failed",
    };
    write!(f, "counters\n  {file}: its file of counters: {why}")
}

/// Why a protected message is refused.
fn refusal_of(fault: UnprotectFault) -> &'static str {
    match fault {
        UnprotectFault::NotProtected => "an answer came without protection",
        UnprotectFault::Short => "a protected answer is cut off",
        UnprotectFault::Long => "a protected answer is too long",
        UnprotectFault::UnknownTitle => "the meter's system title is not known",
        UnprotectFault::AnotherTitle => "an answer has another system title",
        UnprotectFault::AnotherControl => "an answer has another protection",
        UnprotectFault::OldCounter => "an answer has an old counter: it came before, or late",
        UnprotectFault::WrongTag => "an answer has a wrong tag: it was changed, or the keys differ",
        UnprotectFault::AnotherService => "an answer is of another service than its tag says",
    }
}

/// Why the security layer ended an association.
fn write_security<W: fmt::Write>(
    f: &mut fmt::Formatter<W>,
    place: &str,
    fault: &SecuredFault,
) -> fmt::Result {
    write!(f, "security\n  {place}: ")?;
    match fault {
        SecuredFault::Message(fault) => f.write_str(refusal_of(*fault)),
        SecuredFault::Protect(ProtectFault::Reserve) => {
            f.write_str("all counters that were reserved for this association are used")
        }
        SecuredFault::Protect(ProtectFault::Exhausted) => {
            f.write_str("all counters of the key are used: replace the key")
        }
        fault => write!(f, "{fault}"),
    }
}

/// Why there are no counters.
fn write_counters<W: fmt::Write>(
    f: &mut fmt::Formatter<W>,
    file: &str,
    fault: &CountersFault,
) -> fmt::Result {
    let why = match fault {
        CountersFault::Open(NotOpened::Size) => "it has not the size of one",
        CountersFault::Open(NotOpened::Damaged) => {
            "it is damaged\n  restore it, or make a new one with --first above every counter that was used"
        }
        CountersFault::Open(NotOpened::AnotherTitle) => "it is of another system title",
        CountersFault::Open(NotOpened::AnotherKey) => "it is of another key",
        _ => "its device failed",
    };
    write!(f, "counters\n  {file}: its file of counters: {why}")
}

impl fmt::Display for Fault<'_> {
    fn fmt<W: fmt::Write>(&self, f: &mut fmt::Formatter<W>) -> fmt::Result {
        match self {
            Fault::System(place, words) => {
                let words = without_number(words.as_str());
                let hint = hint_of(words);
                write!(f, "io\n  {place}: {words}{hint}")
            }
            Fault::Output => f.write_str("io\n  standard output: it accepts no more"),
            Fault::Input(place) => write!(f, "io\n  {place}: it cannot be read"),
            Fault::Open(file, fault) => {
                write!(f, "{fault}")?;
                match file {
                    Some(file) => write_open(f, file, fault),
                    None => Ok(()),
                }
            }
            Fault::Replay(ReplayFault::Recovery) => f.write_str(
                "recovery\n  the meter could not be recovered: the last line that was printed says why",
            ),
            Fault::Replay(fault) => write!(f, "{fault}"),
            Fault::Run(fault) => write!(f, "{fault}"),
            Fault::Poll(address, fault) => {
                write!(f, "{fault}")?;
                write_poll(f, address, fault)
            }
            Fault::Columns(address, list) => {
                let columns = Columns(list);
                write!(
                    f,
                    "protocol\n  {address}: the meter's columns are {columns}: a readings file has clock and the three registers"
                )
            }
            Fault::Readings(file, number) => {
                let number = *number;
                write!(
                    f,
                    "line {number}\n  {file}: this line is not a line of readings (clock,register,register,register)"
                )
            }
            Fault::Secret(file) => write!(f, "secret\n  {file}: more than 16 bytes"),
            Fault::Late(address, seconds) => {
                write!(f, "line\n  {address}: not done within {seconds} seconds")
            }
            Fault::Overdue(address, seconds) => write!(
                f,
                "line\n  {address}: not done within {seconds} seconds\n  --deadline gives it more time"
            ),
            Fault::Clock(place, fault) => write_clock(f, place, fault),
            Fault::Expect(text) => write!(
                f,
                "expect\n  {text}: NAME=TEXT is expected, as 0.0.42.0.0.255=RTL0000000000001, at most four times"
            ),
            Fault::Stranger(place, expected) => write_stranger(f, place, expected),
            Fault::Name(text) => write!(
                f,
                "name\n  {text}: a name is expected as 1-0:1.8.0*255, 1.0.1.8.0.255 or a word such as clock, and /3 after it for attribute 3\n  dlms names lists the words"
            ),
            Fault::Names(text) => write!(f, "name\n  {text}: at most 16 names are expected"),
            Fault::Unnamed(word) => write!(
                f,
                "name\n  {word}: no object has this in its code, its alias or its name"
            ),
            Fault::Server(text) => write!(
                f,
                "server\n  {text}: an address is expected as UPPER or UPPER/LOWER"
            ),
            Fault::Port(text) => write!(
                f,
                "server\n  {text}: a wrapper port is expected, 0 to 65535"
            ),
            Fault::Place(text) => write!(
                f,
                "place\n  {text}: its carrier is unknown, or does not fit the line or the options\n  known are hdlc://HOST:PORT, wrapper://HOST:PORT and serial:///dev/ttyUSB0"
            ),
            Fault::Value(text) => write!(
                f,
                "value\n  {text}: a value is expected as u32:900, text:.., hex:.., raw:.., null or now"
            ),
            Fault::Unfit(text, meaning) => write!(f, "value\n  {text}: {meaning} is expected"),
            Fault::Untyped(name) => write!(
                f,
                "value\n  {name}: its type cannot be read, or is not simple: a value with its type is expected, as u32:900 or text:.."
            ),
            Fault::Class(name) => write!(
                f,
                "class\n  {name}: it is not in the object list\n  --class gives the class of an object"
            ),
            Fault::Result(name, code, is_action) => {
                let code = *code;
                let named = if *is_action {
                    action_result(code)
                } else {
                    access_result(code)
                };
                let named = named.unwrap_or("a result without a name");
                write!(f, "result {code}\n  {name}: the meter answers {named}")
            }
            Fault::Denied(name, denial) => write_denied(f, name, denial),
            Fault::Call(place, fault) => write_call(f, place, fault),
            Fault::Large(name, most) => {
                let most = *most;
                write!(
                    f,
                    "large\n  {name}: its value has more than {most} octets\n  --most allows more, up to 16777216"
                )
            }
            Fault::File(file) => write!(f, "long\n  {file}: more than 65536 bytes"),
            Fault::NoPage(page, words) => {
                let words = without_number(words.as_str());
                write!(
                    f,
                    "io\n  {page}: {words}\n  .ci/web build makes the page, and --page names it"
                )
            }
            Fault::Page(page) => write!(
                f,
                "page\n  {page}: it has no place for a log, or several\n  .ci/web build makes a page that has one"
            ),
            Fault::NoRows(file) => {
                write!(
                    f,
                    "rows\n  {file}: no row is of the time that --from and --to give"
                )
            }
            Fault::Register(text) => write!(
                f,
                "register\n  {text}: a register is expected: 1.8.0 or r0 for the import, 2.8.0 or r1 for the export, 3.8.0 or r2 for reactive energy"
            ),
            Fault::Time(text) => write!(
                f,
                "time\n  {text}: a time is expected, as 2026-01-31, 2026-01-31T12:00 or 2026-01-31T12:00:00"
            ),
            Fault::List(file, number, words) => {
                let number = *number;
                let words = words.as_str();
                write!(f, "list {number}\n  {file}: {words}")
            }
            Fault::Failed(count) => {
                let count = *count;
                write!(f, "failed {count}")
            }
            Fault::NoClock(name) => write!(
                f,
                "protocol\n  {name}: the profile has no clock among its columns, so it cannot be asked for by time"
            ),
            Fault::NoPeriod(place) => write!(
                f,
                "protocol\n  {place}: its load profile has no capture period, so its rows cannot be asked for in parts"
            ),
            Fault::Unfiled => f.write_str(
                "rows\n  --rows-per-request: a file is needed, by --readings: the next part goes on from its last row",
            ),
            Fault::Buffer(name, fault) => write!(f, "protocol\n  {name}: {fault}"),
            Fault::Action(text) => write!(f, "keys\n  {text}: new or check is expected"),
            Fault::Keys(file, fault) => write_keys(f, file, fault),
            Fault::Counters(file, fault) => write_counters(f, file, fault),
            Fault::CountersSystem(file, words) => {
                let words = without_number(words.as_str());
                write!(f, "io\n  {file}: its file of counters: {words}")
            }
            Fault::Stored(file, fault) => write_stored(f, file, fault),
            Fault::Security(place, fault) => write_security(f, place, fault),
            Fault::Now => f.write_str(
                "now\n  the system's clock is before 2000-01-01 or after 2099-12-31, which no meter's clock shows",
            ),
        }
    }
}
