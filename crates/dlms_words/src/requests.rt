//! The jobs that make requests of any meter.
ghost use Rattle.std.specs.Prelude.{◌≡◌, List, None, Some, IfSome, codes};
ghost use Rattle.clap.specs.Words.{Row, subcommand_rows_of};
ghost use Rattle.dlms_words.specs.Words.{IsMeter, Asks, IsAsking, IsNoneOf, requests};

use crate::commands::{
    ActOptions, Asking, ClockOptions, GetOptions, Job, ListOptions, MeterOptions, ProfileOptions,
    SetOptions,
};
use crate::defaults::{CLIENT, MOST, THRESHOLD, TIMEOUT};
use crate::values::{
    given_number_for, is_given, number_for, output_format, table_format, value_for, value_format,
};
use clap::ArgMatches;

/// The meter that a command polls or asks, and the way to it.
pub fn meter<'a>(matches: &ArgMatches<'a>, command: &str) -> MeterOptions<'a>
    ensures { (rows : List Row) → subcommand_rows_of matches.now ≡ Some (command.now, rows)
        → IsMeter rows result }
{
    let wide = is_given(value_for(matches, command, "wide"));
    let wrapper = is_given(value_for(matches, command, "wrapper"));
    MeterOptions {
        place: value_for(matches, command, "PLACE").unwrap_or(""),
        server: value_for(matches, command, "server"),
        wide,
        information: given_number_for(matches, command, "information"),
        wrapper,
        secret_file: value_for(matches, command, "secret-file"),
        security: value_for(matches, command, "security"),
        counter_from: value_for(matches, command, "counter-from"),
        timeout: number_for(matches, command, "timeout", TIMEOUT),
        retries: given_number_for(matches, command, "retries"),
    }
}

/// The meter that a command asks, and the client that asks.
fn asking<'a>(matches: &ArgMatches<'a>, command: &str) -> Asking<'a>
    ensures { (rows : List Row) → subcommand_rows_of matches.now ≡ Some (command.now, rows)
        → IsAsking rows result }
{
    let verbose = is_given(value_for(matches, command, "verbose"));
    Asking {
        meter: meter(matches, command),
        client: number_for(matches, command, "client", CLIENT),
        verbose,
        most: number_for(matches, command, "most", MOST),
    }
}

/// The values of `get`.
fn get_job<'a>(matches: &ArgMatches<'a>) -> Job<'a>
    ensures { (rows : List Row) → subcommand_rows_of matches.now ≡ Some (codes "get", rows)
        → Asks (Some (codes "get", rows)) result }
{
    let raw = is_given(value_for(matches, "get", "raw"));
    let json = is_given(value_for(matches, "get", "json"));
    Job::Get(GetOptions {
        asking: asking(matches, "get"),
        names: value_for(matches, "get", "NAMES").unwrap_or(""),
        class: number_for(matches, "get", "class", 0),
        format: value_format(raw, json),
    })
}

/// The values of `list`.
fn list_job<'a>(matches: &ArgMatches<'a>) -> Job<'a>
    ensures { (rows : List Row) → subcommand_rows_of matches.now ≡ Some (codes "list", rows)
        → Asks (Some (codes "list", rows)) result }
{
    let json = is_given(value_for(matches, "list", "json"));
    let long = is_given(value_for(matches, "list", "long"));
    let quiet = is_given(value_for(matches, "list", "quiet"));
    Job::List(ListOptions {
        asking: asking(matches, "list"),
        format: output_format(json),
        long,
        quiet,
    })
}

/// The values of `profile`.
fn profile_job<'a>(matches: &ArgMatches<'a>) -> Job<'a>
    ensures { (rows : List Row) → subcommand_rows_of matches.now ≡ Some (codes "profile", rows)
        → Asks (Some (codes "profile", rows)) result }
{
    let csv = is_given(value_for(matches, "profile", "csv"));
    let json = is_given(value_for(matches, "profile", "json"));
    let raw = is_given(value_for(matches, "profile", "raw"));
    let quiet = is_given(value_for(matches, "profile", "quiet"));
    Job::Profile(ProfileOptions {
        asking: asking(matches, "profile"),
        name: value_for(matches, "profile", "NAME"),
        from: value_for(matches, "profile", "from"),
        to: value_for(matches, "profile", "to"),
        last: given_number_for(matches, "profile", "last"),
        format: table_format(csv, json),
        raw,
        quiet,
    })
}

/// The values of `clock`.
fn clock_job<'a>(matches: &ArgMatches<'a>) -> Job<'a>
    ensures { (rows : List Row) → subcommand_rows_of matches.now ≡ Some (codes "clock", rows)
        → Asks (Some (codes "clock", rows)) result }
{
    let set = is_given(value_for(matches, "clock", "set"));
    let json = is_given(value_for(matches, "clock", "json"));
    Job::Clock(ClockOptions {
        asking: asking(matches, "clock"),
        set,
        threshold: number_for(matches, "clock", "threshold", THRESHOLD),
        format: output_format(json),
    })
}

/// The values of `set`.
fn set_job<'a>(matches: &ArgMatches<'a>) -> Job<'a>
    ensures { (rows : List Row) → subcommand_rows_of matches.now ≡ Some (codes "set", rows)
        → Asks (Some (codes "set", rows)) result }
{
    let json = is_given(value_for(matches, "set", "json"));
    Job::Set(SetOptions {
        asking: asking(matches, "set"),
        name: value_for(matches, "set", "NAME").unwrap_or(""),
        value: value_for(matches, "set", "VALUE").unwrap_or(""),
        class: number_for(matches, "set", "class", 0),
        format: output_format(json),
    })
}

/// The values of `act`.
fn act_job<'a>(matches: &ArgMatches<'a>) -> Job<'a>
    ensures { (rows : List Row) → subcommand_rows_of matches.now ≡ Some (codes "act", rows)
        → Asks (Some (codes "act", rows)) result }
{
    let json = is_given(value_for(matches, "act", "json"));
    Job::Act(ActOptions {
        asking: asking(matches, "act"),
        name: value_for(matches, "act", "NAME").unwrap_or(""),
        value: value_for(matches, "act", "VALUE"),
        class: number_for(matches, "act", "class", 0),
        format: output_format(json),
    })
}

/// The request of any meter that is asked for, if one is.
pub fn request_job<'a>(matches: &ArgMatches<'a>) -> Option<Job<'a>>
    ensures some { IfSome result (Asks (subcommand_rows_of matches.now)) }
    ensures none { result ≡ None → IsNoneOf requests (subcommand_rows_of matches.now) }
{
    if matches.subcommand_name() == Some("get") {
        return Some(get_job(matches));
    }
    if matches.subcommand_name() == Some("list") {
        return Some(list_job(matches));
    }
    if matches.subcommand_name() == Some("profile") {
        return Some(profile_job(matches));
    }
    if matches.subcommand_name() == Some("clock") {
        return Some(clock_job(matches));
    }
    if matches.subcommand_name() == Some("set") {
        return Some(set_job(matches));
    }
    if matches.subcommand_name() == Some("act") {
        return Some(act_job(matches));
    }
    None
}
