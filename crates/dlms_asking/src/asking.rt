//! A meter that is asked: the line to it, the association, and the request.

use crate::clock::{ClockRequest, clock_request};
use crate::connection::{Calls, open_association};
use crate::given::value_given;
use crate::over_line::ask_on;
use crate::profile::{ProfileRequest, request_of};
use crate::requests::{MeterSession, first_fault, read_method, read_name};
use crate::route::route_of;
use crate::security::{heed_counter, keep_counter, parted, protection_with};
use crate::setting::{Given, given_in};
use arrayvec::ArrayVec;
use dlms_call::CallFault;
use dlms_client::Plan;
use dlms_data::Data;
use dlms_ends::End;
use dlms_faults::Fault;
use dlms_frame::Client;
use dlms_guards::Protection;
use dlms_headend::PollFault;
use dlms_keys::StoredCounters;
use dlms_lines::{Dialling, FieldFault, MeterLine};
use dlms_polling::{HostPollInputs, PollInputs, secret_of};
use dlms_printing::{Following, ListForm, Showing, put_fault};
use dlms_words::{
    ActOptions, Asking, ClockOptions, GetOptions, ListOptions, MeterOptions, OutputFormat,
    ProfileOptions, SetOptions, ValueFormat,
};
use std::alloc::Global;
use std::fs::File;
use std::io::Write;
use std::net::Net;
use std::random::RandomSource;
use std::rt::Files;
use std::time::Clock;

/// The most bytes of an APDU.
pub const SIZE: u16 = 1_024;

/// The frame counters that are reserved for an association.
pub const FEW_COUNTERS: u32 = 1_000;

/// The frame counters for a further name: its value in a few blocks, its scaler, and the answer's confirmations.
const NAME_COUNTERS: u32 = 16;

/// How many attributes of an object list are read at most with the counters of one association.
const MOST_LISTED: u32 = 4_096;

/// The octets of a value in a block, for which further counters are reserved.
const LEAST_BLOCK: u32 = 512;

/// For how many seconds the addresses of a place are tried.
const CONNECT_SECONDS: u32 = 60;

/// A request to a meter, with its arguments checked.
#[derive(Drop)]
pub enum Request<'a> {
    Get {
        names: &'a str,
        class: u16,
        format: ValueFormat,
    },
    List {
        form: ListForm,
        showing: Showing,
    },
    Set {
        name: &'a str,
        value: Given<'a>,
        class: u16,
        format: OutputFormat,
    },
    Act {
        name: &'a str,
        value: Option<Data<Global>>,
        class: u16,
        format: OutputFormat,
    },
    Profile(ProfileRequest<'a>),
    Clock(ClockRequest),
}

/// A call of a meter: the address or the device of the line to it, and the association on that line.
#[derive(Drop)]
struct Call<'a> {
    line: &'a str,
    plan: Plan,
}

/// The secret in the file, if a file is given.
#[inline(never)]
fn secret<'a, H: Files + Clock>(
    host: &H,
    alloc: Global,
    asking: &Asking<'a>,
) -> Result<Option<ArrayVec<u8, 16>>, Fault<'a>> {
    let Some(file) = asking.meter.secret_file else {
        return Ok(None);
    };
    let mut inputs = HostPollInputs::new(host);
    match secret_of(&mut inputs, Client::Management, Some(file)) {
        Ok(secret) => Ok(Some(secret)),
        Err(FieldFault::System(place, error)) => Err(Fault::of_system(alloc, place, &error)),
        Err(_) => Err(Fault::Secret(file)),
    }
}

/// The request, once the association is open.
#[inline(never)]
fn run_request<'a, H: Clock, C: Calls, W: Write, P: Following>(
    host: &H,
    talk: &mut MeterSession<'a, '_, C>,
    request: Request<'a>,
    output: &mut W,
    progress: &mut P,
) -> Result<(), Fault<'a>> {
    match request {
        Request::Get {
            names,
            class,
            format,
        } => talk.get_all(names, class, format, output),
        Request::List { form, .. } => talk.list_all(form, output),
        Request::Set {
            name,
            value,
            class,
            format,
        } => talk.set_one(name, value, class, format, output),
        Request::Act {
            name,
            value,
            class,
            format,
        } => talk.act_one(name, value, class, format, output),
        Request::Profile(profile) => talk.profile_one(profile, output, progress),
        Request::Clock(clock) => talk.clock_one(host, clock, output),
    }
}

/// An attempt to ask a meter, but for its line and what is printed.
#[derive(Drop)]
pub struct Attempt<'q, 'a> {
    pub asking: &'q Asking<'a>,
    pub plan: Plan,
    /// What protects the association, if it is to be protected.
    pub protection: Option<Protection>,
    /// The request, which is taken once the association is open.
    pub waiting: &'q mut Option<Request<'a>>,
    /// The faults of single names.
    pub refused: &'q mut Vec<Fault<'a>>,
}

/// The request to make by an open association, and the counters of its protection.
struct Inquiry<'q, 'a> {
    asking: &'q Asking<'a>,
    counters: &'q mut Option<Box<StoredCounters>>,
    waiting: &'q mut Option<Request<'a>>,
    refused: &'q mut Vec<Fault<'a>>,
}

/// Makes a request by an open association, and ends the association, also if the request failed.
fn converse<'a, H: Clock + AllocGlobal, C: Calls, W: Write, P: Following>(
    host: &H,
    inquiry: Inquiry<'_, 'a>,
    calls: &mut C,
    output: &mut W,
    progress: &mut P,
) -> Result<(), Fault<'a>> {
    let Inquiry {
        asking,
        counters,
        waiting,
        refused,
    } = inquiry;
    let alloc = host.alloc();
    heed_counter(alloc, &asking.meter, counters, calls)?;
    let Some(request) = waiting.take() else {
        return Ok(());
    };
    let mut talk = MeterSession {
        alloc,
        place: asking.meter.place,
        calls,
        most: asking.most,
        refused,
    };
    let outcome = run_request(host, &mut talk, request, output, progress);
    talk.end();
    let kept = keep_counter(&asking.meter, counters, talk.calls);
    first_fault(outcome, kept)
}

/// An association over a line, the request in it, and its end, also if the request failed.
#[inline(never)]
pub fn exchange<'a, H: Clock + AllocGlobal, S: End, W: Write, P: Following>(
    host: &H,
    attempt: Attempt<'_, 'a>,
    line: &mut S,
    output: &mut W,
    progress: &mut P,
) -> Result<(), Fault<'a>> {
    let Attempt {
        asking,
        plan,
        protection,
        waiting,
        refused,
    } = attempt;
    let (guard, mut counters) = parted(protection);
    let mut connection = match open_association(
        host.alloc(),
        asking.meter.place,
        plan,
        guard,
        line,
    ) {
        Ok(connection) => connection,
        Err(fault) => return Err(fault),
    };
    let inquiry = Inquiry {
        asking,
        counters: &mut counters,
        waiting,
        refused,
    };
    converse(host, inquiry, &mut connection, output, progress)
}

/// Looks at names, which commas separate.
fn look_at_names<'a>(names: &'a str) -> Result<(), Fault<'a>> {
    let mut rest = names;
    'names: for _name in 0..names.len() {
        match rest.split_once(',') {
            Some((said, behind)) => {
                read_name(said)?;
                rest = behind;
            }
            None => break,
        }
    }
    read_name(rest)?;
    Ok(())
}

/// Looks at the names of a request.
fn look<'a>(request: &Request<'a>) -> Result<(), Fault<'a>> {
    let read = match request {
        Request::List { .. } | Request::Clock(_) => return Ok(()),
        Request::Get { names, .. } => return look_at_names(names),
        Request::Set { name, .. } => return look_at_names(name),
        Request::Profile(profile) => read_name(profile.name()),
        Request::Act { name, .. } => read_method(name),
    };
    match read {
        Ok(_) => Ok(()),
        Err(fault) => Err(fault),
    }
}

/// Connects a line to the meter at a place, by the address or the device of it.
fn connect<'a, L: Dialling>(
    alloc: Global,
    line: &mut L,
    place: &'a str,
    address: &str,
) -> Result<(), Fault<'a>> {
    match line.connect(address, CONNECT_SECONDS) {
        Ok(true) => Ok(()),
        Ok(false) => Err(Fault::Late(place, CONNECT_SECONDS)),
        Err(error) => Err(Fault::of_system(alloc, place, &error)),
    }
}

/// The line to the meter at a place.
#[inline(never)]
pub fn line_to<'a, 'r, H: Net + Files<File = File> + Clock + AllocGlobal>(
    host: &'r H,
    meter: &MeterOptions<'a>,
    address: &str,
) -> Result<MeterLine<'r, H>, Fault<'a>> {
    let mut line = MeterLine::new(host).waiting(meter.timeout);
    match connect(host.alloc(), &mut line, meter.place, address) {
        Ok(()) => Ok(line),
        Err(fault) => {
            drop(line);
            Err(fault)
        }
    }
}

/// The names after the first one, which commas separate.
fn further_names(names: &str) -> u32 {
    let mut count: u32 = 0;
    for octet in names.as_bytes() {
        if *octet == b',' {
            count = count.saturating_add(1);
        }
    }
    count
}

/// How many frame counters are reserved for an association with this request: a step, with some for each name, and as many as the
/// longest value may need messages.
fn counters_for(asking: &Asking<'_>, request: &Request<'_>) -> u32 {
    let names = match request {
        Request::Set { .. } | Request::Act { .. } | Request::Clock(_) => return FEW_COUNTERS,
        Request::Get { names, .. } => further_names(names),
        Request::List { form, .. } if form.has_values() => MOST_LISTED,
        _ => 0,
    };
    FEW_COUNTERS
        .saturating_add(names.saturating_mul(NAME_COUNTERS))
        .saturating_add(asking.most / LEAST_BLOCK)
}

/// What protects the association, if it is to be protected.
fn protection<'a, H: Net + Files<File = File> + Clock + AllocGlobal + RandomSource>(
    host: &H,
    asking: &Asking<'a>,
    waiting: &Option<Request<'a>>,
) -> Result<Option<Protection>, Fault<'a>> {
    match waiting {
        Some(request) => protection_with(host, &asking.meter, counters_for(asking, request)),
        None => Ok(None),
    }
}

/// The call that is asked for, if the request's names are valid.
fn call_of<'a, H: Files<File = File> + Clock + AllocGlobal>(
    host: &H,
    asking: &Asking<'a>,
    request: &Request<'a>,
) -> Result<Call<'a>, Fault<'a>> {
    look(request)?;
    let (route, line) = route_of(&asking.meter, asking.client)?;
    let secret = secret(host, host.alloc(), asking)?;
    Ok(Call {
        line,
        plan: Plan {
            route,
            secret,
            size: SIZE,
        },
    })
}

/// Whether a request prints values as JSON, and so reports the faults of single names as JSON.
fn prints_json(waiting: &Option<Request<'_>>) -> bool {
    match waiting {
        Some(Request::Get { format, .. }) => *format == ValueFormat::Json,
        _ => false,
    }
}

/// The result of a request in which these names failed: its last fault, after the others went to standard error.
fn with_refused<'a, E: Write>(
    alloc: Global,
    is_json: bool,
    refused: Vec<Fault<'a>>,
    talked: Result<(), Fault<'a>>,
    errors: &mut E,
) -> Result<(), Fault<'a>> {
    let mut refused = refused;
    let last = match talked {
        Ok(()) => refused.pop(),
        Err(fault) => Some(fault),
    };
    for fault in &refused {
        let _written = put_fault(alloc, fault, is_json, errors);
    }
    drop(refused);
    match last {
        Some(fault) => Err(fault),
        None => Ok(()),
    }
}

/// Calls a meter once.
fn ask_once<
    'a,
    H: Net + Files<File = File> + Clock + AllocGlobal + RandomSource,
    W: Write,
    E: Write,
>(
    host: &H,
    asking: &Asking<'a>,
    call: Call<'a>,
    waiting: &mut Option<Request<'a>>,
    output: &mut W,
    errors: &mut E,
) -> Result<(), Fault<'a>> {
    let Call { line, plan } = call;
    let is_json = prints_json(waiting);
    let protection = protection(host, asking, waiting)?;
    let line = match line_to(host, &asking.meter, line) {
        Ok(line) => line,
        Err(fault) => {
            drop(protection);
            return Err(fault);
        }
    };
    let mut refused = Vec::new(host.alloc());
    let attempt = Attempt {
        asking,
        plan,
        protection,
        waiting,
        refused: &mut refused,
    };
    let told = ask_on(host, attempt, line, output, errors);
    with_refused(host.alloc(), is_json, refused, told, errors)
}

/// Whether the meter at this place did not answer, or its connection was refused or lost.
fn is_silence(place: &str, fault: &Fault<'_>) -> bool {
    match fault {
        Fault::System(at, _) => *at == place,
        Fault::Late(..) | Fault::Poll(_, PollFault::Line) | Fault::Call(_, CallFault::Io) => true,
        _ => false,
    }
}

/// Whether this is the result of asking a meter that did not answer.
pub fn is_unanswered<T>(place: &str, told: &Result<T, Fault<'_>>) -> bool {
    match told {
        Ok(_) => false,
        Err(fault) => is_silence(place, fault),
    }
}

/// The call for a request that waits.
fn call_again<'a, H: Files<File = File> + Clock + AllocGlobal>(
    host: &H,
    asking: &Asking<'a>,
    waiting: &Option<Request<'a>>,
) -> Result<Option<Call<'a>>, Fault<'a>> {
    match waiting {
        Some(request) => Ok(Some(call_of(host, asking, request)?)),
        None => Ok(None),
    }
}

/// Calls a meter again, a second later, for the request that waits.
fn ask_again<
    'a,
    H: Net + Files<File = File> + Clock + AllocGlobal + RandomSource,
    W: Write,
    E: Write,
>(
    host: &H,
    asking: &Asking<'a>,
    waiting: &mut Option<Request<'a>>,
    output: &mut W,
    errors: &mut E,
) -> Result<(), Fault<'a>> {
    let mut inputs = HostPollInputs::new(host);
    inputs.pause();
    match call_again(host, asking, waiting) {
        Ok(Some(call)) => ask_once(host, asking, call, waiting, output, errors),
        Ok(None) => Ok(()),
        Err(fault) => Err(fault),
    }
}

/// Calls a meter. One that does not answer is called again, a second later, as often as `--retries` says, but not once it may have
/// got the request.
fn ask_by<'a, H: Net + Files<File = File> + Clock + AllocGlobal + RandomSource, W: Write, E: Write>(
    host: &H,
    asking: &Asking<'a>,
    call: Call<'a>,
    waiting: &mut Option<Request<'a>>,
    output: &mut W,
    errors: &mut E,
) -> Result<(), Fault<'a>> {
    let mut told = ask_once(host, asking, call, waiting, output, errors);
    'calls: for _call in 0..asking.meter.retries.unwrap_or(0) {
        if waiting.is_none() || !is_unanswered(asking.meter.place, &told) {
            return told;
        }
        told = ask_again(host, asking, waiting, output, errors);
    }
    told
}

/// Asks a meter.
#[inline(never)]
fn ask<'a, H: Net + Files<File = File> + Clock + AllocGlobal + RandomSource, W: Write, E: Write>(
    host: &H,
    asking: &Asking<'a>,
    request: Request<'a>,
    output: &mut W,
    errors: &mut E,
) -> Result<(), Fault<'a>> {
    let call = match call_of(host, asking, &request) {
        Ok(call) => call,
        Err(fault) => {
            drop(request);
            return Err(fault);
        }
    };
    let mut waiting = Some(request);
    let told = ask_by(host, asking, call, &mut waiting, output, errors);
    drop(waiting);
    told
}

/// The number of a class; 0 for a number that is not of 16 bits.
fn class_number(class: u32) -> u16 {
    u16::try_from(class).unwrap_or(0)
}

/// Asks a meter for attributes, and prints their values.
#[inline(never)]
pub fn ask_to_get<
    'a,
    H: Net + Files<File = File> + Clock + AllocGlobal + RandomSource,
    W: Write,
    E: Write,
>(host: &H, options: &GetOptions<'a>, output: &mut W, errors: &mut E) -> Result<(), Fault<'a>> {
    let request = Request::Get {
        names: options.names,
        class: class_number(options.class),
        format: options.format,
    };
    ask(host, &options.asking, request, output, errors)
}

/// Asks a meter for its object list, and prints it. This is shown of the progress.
#[inline(never)]
pub fn ask_to_list<
    'a,
    H: Net + Files<File = File> + Clock + AllocGlobal + RandomSource,
    W: Write,
    E: Write,
>(
    host: &H,
    options: &ListOptions<'a>,
    showing: Showing,
    output: &mut W,
    errors: &mut E,
) -> Result<(), Fault<'a>> {
    let form = match (options.format, options.long) {
        (OutputFormat::Json, true) => ListForm::LongJson,
        (OutputFormat::Json, false) => ListForm::Json,
        (OutputFormat::Text, true) => ListForm::Long,
        (OutputFormat::Text, false) => ListForm::Columns,
    };
    let request = Request::List { form, showing };
    ask(host, &options.asking, request, output, errors)
}

/// Asks a meter for rows of a profile, and prints them while they come. This is shown of the progress, unless the bytes of the line
/// are explained.
#[inline(never)]
pub fn ask_for_profile<
    'a,
    H: Net + Files<File = File> + Clock + AllocGlobal + RandomSource,
    W: Write,
    E: Write,
>(
    host: &H,
    options: &ProfileOptions<'a>,
    showing: Showing,
    output: &mut W,
    errors: &mut E,
) -> Result<(), Fault<'a>> {
    let request = Request::Profile(request_of(options, showing)?);
    ask(host, &options.asking, request, output, errors)
}

/// Compares a meter's clock with the system's, and corrects it if that is asked for.
#[inline(never)]
pub fn ask_for_clock<
    'a,
    H: Net + Files<File = File> + Clock + AllocGlobal + RandomSource,
    W: Write,
    E: Write,
>(host: &H, options: &ClockOptions<'a>, output: &mut W, errors: &mut E) -> Result<(), Fault<'a>> {
    let request = Request::Clock(clock_request(options));
    ask(host, &options.asking, request, output, errors)
}

/// Asks a meter to set an attribute to the value that a text writes.
#[inline(never)]
pub fn ask_to_set<
    'a,
    H: Net + Files<File = File> + Clock + AllocGlobal + RandomSource,
    W: Write,
    E: Write,
>(host: &H, options: &SetOptions<'a>, output: &mut W, errors: &mut E) -> Result<(), Fault<'a>> {
    let request = Request::Set {
        name: options.name,
        value: given_in(host, options.value)?,
        class: class_number(options.class),
        format: options.format,
    };
    ask(host, &options.asking, request, output, errors)
}

/// Asks a meter to carry out a method, with the value that a text writes, if there is one.
#[inline(never)]
pub fn ask_to_act<
    'a,
    H: Net + Files<File = File> + Clock + AllocGlobal + RandomSource,
    W: Write,
    E: Write,
>(host: &H, options: &ActOptions<'a>, output: &mut W, errors: &mut E) -> Result<(), Fault<'a>> {
    let value = match options.value {
        Some(value) => Some(value_given(host, value)?),
        None => None,
    };
    let request = Request::Act {
        name: options.name,
        value,
        class: class_number(options.class),
        format: options.format,
    };
    ask(host, &options.asking, request, output, errors)
}
