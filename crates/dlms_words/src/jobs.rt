//! The other jobs.
ghost use Rattle.std.specs.Prelude.{◌≡◌, List, None, Some, IfSome, codes};
ghost use Rattle.clap.specs.Words.{all_of, Row, subcommand_rows_of};
ghost use Rattle.dlms_words.specs.Words.{asker as client_by, Asks, IsExpecting, IsNoneOf, meter_commands, others};

use crate::commands::{
    CollectOptions, Expecting, ExplainOptions, FormatOptions, Job, KeysOptions, ListenOptions,
    LoopbackOptions, PlotOptions, PollOptions, ServeOptions, ShowOptions,
};
use crate::defaults::{AT_ONCE, DEADLINE, IDLE, INACTIVITY, THRESHOLD, TICK, TURN};
use crate::requests::meter;
use crate::values::{
    ahead, color_choice, given_number_for, is_given, nth_for, number_for, output_format, shell,
    stops, value_for,
};
use clap::ArgMatches;
use dlms_frame::Client;

/// The values of `format`.
fn format_job<'a>(matches: &ArgMatches<'a>) -> Job<'a>
    ensures { (rows : List Row) → subcommand_rows_of matches.now ≡ Some (codes "format", rows)
        → Asks (Some (codes "format", rows)) result }
{
    let demo = is_given(value_for(matches, "format", "demo"));
    let demo_day = is_given(value_for(matches, "format", "demo-day"));
    let force = is_given(value_for(matches, "format", "force"));
    Job::Format(FormatOptions {
        file: value_for(matches, "format", "FILE").unwrap_or(""),
        demo,
        demo_day,
        force,
    })
}

/// The file of `replay`.
fn replay_job<'a>(matches: &ArgMatches<'a>) -> Job<'a>
    ensures { (rows : List Row) → subcommand_rows_of matches.now ≡ Some (codes "replay", rows)
        → Asks (Some (codes "replay", rows)) result }
{
    Job::Replay(value_for(matches, "replay", "FILE"))
}

/// The values of `loopback`.
fn loopback_job<'a>(matches: &ArgMatches<'a>) -> Job<'a>
    ensures { (rows : List Row) → subcommand_rows_of matches.now ≡ Some (codes "loopback", rows)
        → Asks (Some (codes "loopback", rows)) result }
{
    Job::Loopback(LoopbackOptions {
        readings: value_for(matches, "loopback", "readings"),
        stops: stops(value_for(matches, "loopback", "stops")),
    })
}

/// The values of `serve`.
fn serve_job<'a>(matches: &ArgMatches<'a>) -> Job<'a>
    ensures { (rows : List Row) → subcommand_rows_of matches.now ≡ Some (codes "serve", rows)
        → Asks (Some (codes "serve", rows)) result }
{
    let quiet = is_given(value_for(matches, "serve", "quiet"));
    let wrapper = is_given(value_for(matches, "serve", "wrapper"));
    Job::Serve(ServeOptions {
        file: value_for(matches, "serve", "FILE").unwrap_or(""),
        listen: value_for(matches, "serve", "listen"),
        line: value_for(matches, "serve", "line"),
        wrapper,
        load: number_for(matches, "serve", "load", 0),
        tick: number_for(matches, "serve", "tick", TICK),
        quiet,
        idle: number_for(matches, "serve", "idle", IDLE),
        turn: number_for(matches, "serve", "turn", TURN),
        inactivity: number_for(matches, "serve", "inactivity", INACTIVITY),
    })
}

/// The values of `listen`.
fn listen_job<'a>(matches: &ArgMatches<'a>) -> Job<'a>
    ensures { (rows : List Row) → subcommand_rows_of matches.now ≡ Some (codes "listen", rows)
        → Asks (Some (codes "listen", rows)) result }
{
    let quiet = is_given(value_for(matches, "listen", "quiet"));
    let json = is_given(value_for(matches, "listen", "json"));
    Job::Listen(ListenOptions {
        line: value_for(matches, "listen", "LINE"),
        listen: value_for(matches, "listen", "listen"),
        keys: value_for(matches, "listen", "keys"),
        csv: value_for(matches, "listen", "csv"),
        readings: value_for(matches, "listen", "readings"),
        count: given_number_for(matches, "listen", "count"),
        quiet,
        format: output_format(json),
    })
}

/// Who asks, by the flags that were given.
fn asker(public: bool, reader: bool) -> Client
    ensures { result ≡ client_by public reader }
{
    if public {
        Client::Public
    } else if reader {
        Client::Reader
    } else {
        Client::Management
    }
}

/// The texts that the meter's objects have to show.
fn expecting<'a>(matches: &ArgMatches<'a>) -> Expecting<'a>
    ensures { (rows : List Row) → subcommand_rows_of matches.now ≡ Some (codes "poll", rows)
        → IsExpecting (all_of (codes "expect") rows) result }
{
    Expecting {
        first: nth_for(matches, "poll", "expect", 0),
        second: nth_for(matches, "poll", "expect", 1),
        third: nth_for(matches, "poll", "expect", 2),
        fourth: nth_for(matches, "poll", "expect", 3),
        fifth: nth_for(matches, "poll", "expect", 4),
    }
}

/// The values of `poll`.
pub fn poll_job<'a>(matches: &ArgMatches<'a>) -> Job<'a>
    ensures { (rows : List Row) → subcommand_rows_of matches.now ≡ Some (codes "poll", rows)
        → Asks (Some (codes "poll", rows)) result }
{
    let public = is_given(value_for(matches, "poll", "public"));
    let reader = is_given(value_for(matches, "poll", "reader"));
    let checks = is_given(value_for(matches, "poll", "check-clock"));
    let strict = is_given(value_for(matches, "poll", "strict"));
    let quiet = is_given(value_for(matches, "poll", "quiet"));
    let json = is_given(value_for(matches, "poll", "json"));
    Job::Poll(PollOptions {
        meter: meter(matches, "poll"),
        readings: value_for(matches, "poll", "readings"),
        client: asker(public, reader),
        sap: given_number_for(matches, "poll", "client"),
        deadline: number_for(matches, "poll", "deadline", DEADLINE),
        rows: given_number_for(matches, "poll", "rows-per-request"),
        ahead: ahead(checks, value_for(matches, "poll", "ahead")),
        strict,
        expecting: expecting(matches),
        quiet,
        format: output_format(json),
    })
}

/// The values of `collect`.
fn collect_job<'a>(matches: &ArgMatches<'a>) -> Job<'a>
    ensures { (rows : List Row) → subcommand_rows_of matches.now ≡ Some (codes "collect", rows)
        → Asks (Some (codes "collect", rows)) result }
{
    let quiet = is_given(value_for(matches, "collect", "quiet"));
    let json = is_given(value_for(matches, "collect", "json"));
    let clock = is_given(value_for(matches, "collect", "clock"));
    let set = is_given(value_for(matches, "collect", "set"));
    Job::Collect(CollectOptions {
        list: value_for(matches, "collect", "LIST").unwrap_or(""),
        readings: value_for(matches, "collect", "readings"),
        get: value_for(matches, "collect", "get"),
        clock,
        set,
        threshold: number_for(matches, "collect", "threshold", THRESHOLD),
        secret_file: value_for(matches, "collect", "secret-file"),
        client: given_number_for(matches, "collect", "client"),
        at_once: number_for(matches, "collect", "at-once", AT_ONCE),
        deadline: number_for(matches, "collect", "deadline", DEADLINE),
        every: given_number_for(matches, "collect", "every"),
        retries: number_for(matches, "collect", "retries", 0),
        failed: value_for(matches, "collect", "failed"),
        quiet,
        format: output_format(json),
    })
}

/// The job of a command that makes or runs a meter, or that polls many, if it is one.
pub fn meter_job<'a>(matches: &ArgMatches<'a>) -> Option<Job<'a>>
    ensures some { IfSome result (Asks (subcommand_rows_of matches.now)) }
    ensures none { result ≡ None → IsNoneOf meter_commands (subcommand_rows_of matches.now) }
{
    if matches.subcommand_name() == Some("format") {
        return Some(format_job(matches));
    }
    if matches.subcommand_name() == Some("replay") {
        return Some(replay_job(matches));
    }
    if matches.subcommand_name() == Some("loopback") {
        return Some(loopback_job(matches));
    }
    if matches.subcommand_name() == Some("serve") {
        return Some(serve_job(matches));
    }
    if matches.subcommand_name() == Some("listen") {
        return Some(listen_job(matches));
    }
    if matches.subcommand_name() == Some("collect") {
        return Some(collect_job(matches));
    }
    None
}

/// The values of `show`.
fn show_job<'a>(matches: &ArgMatches<'a>) -> Job<'a>
    ensures { (rows : List Row) → subcommand_rows_of matches.now ≡ Some (codes "show", rows)
        → Asks (Some (codes "show", rows)) result }
{
    let plot = is_given(value_for(matches, "show", "plot"));
    let json = is_given(value_for(matches, "show", "json"));
    Job::Show(ShowOptions {
        file: value_for(matches, "show", "FILE").unwrap_or(""),
        plot,
        format: output_format(json),
    })
}

/// The values of `explain`.
fn explain_job<'a>(matches: &ArgMatches<'a>) -> Job<'a>
    ensures { (rows : List Row) → subcommand_rows_of matches.now ≡ Some (codes "explain", rows)
        → Asks (Some (codes "explain", rows)) result }
{
    let raw = is_given(value_for(matches, "explain", "raw"));
    let short = is_given(value_for(matches, "explain", "short"));
    let hex = is_given(value_for(matches, "explain", "hex"));
    let json = is_given(value_for(matches, "explain", "json"));
    let quiet = is_given(value_for(matches, "explain", "quiet"));
    Job::Explain(ExplainOptions {
        file: value_for(matches, "explain", "FILE"),
        raw,
        short,
        hex,
        format: output_format(json),
        keys: value_for(matches, "explain", "keys"),
        color: color_choice(value_for(matches, "explain", "color")),
        html: value_for(matches, "explain", "html"),
        page: value_for(matches, "explain", "page"),
        quiet,
    })
}

/// The values of `plot`.
fn plot_job<'a>(matches: &ArgMatches<'a>) -> Job<'a>
    ensures { (rows : List Row) → subcommand_rows_of matches.now ≡ Some (codes "plot", rows)
        → Asks (Some (codes "plot", rows)) result }
{
    let svg = is_given(value_for(matches, "plot", "svg"));
    let json = is_given(value_for(matches, "plot", "json"));
    let quiet = is_given(value_for(matches, "plot", "quiet"));
    Job::Plot(PlotOptions {
        readings: value_for(matches, "plot", "READINGS").unwrap_or(""),
        svg,
        format: output_format(json),
        register: value_for(matches, "plot", "register"),
        from: value_for(matches, "plot", "from"),
        to: value_for(matches, "plot", "to"),
        quiet,
    })
}

/// The values of `keys`.
fn keys_job<'a>(matches: &ArgMatches<'a>) -> Job<'a>
    ensures { (rows : List Row) → subcommand_rows_of matches.now ≡ Some (codes "keys", rows)
        → Asks (Some (codes "keys", rows)) result }
{
    Job::Keys(KeysOptions {
        action: value_for(matches, "keys", "ACTION").unwrap_or(""),
        file: value_for(matches, "keys", "FILE").unwrap_or(""),
        first: number_for(matches, "keys", "first", 0),
    })
}

/// The word of `names`.
fn names_job<'a>(matches: &ArgMatches<'a>) -> Job<'a>
    ensures { (rows : List Row) → subcommand_rows_of matches.now ≡ Some (codes "names", rows)
        → Asks (Some (codes "names", rows)) result }
{
    Job::Names(value_for(matches, "names", "WORD").unwrap_or(""))
}

/// The shell of `completions`.
fn completions_job<'a>(matches: &ArgMatches<'a>) -> Job<'a>
    ensures { (rows : List Row) → subcommand_rows_of matches.now ≡ Some (codes "completions", rows)
        → Asks (Some (codes "completions", rows)) result }
{
    Job::Completions(shell(value_for(matches, "completions", "SHELL")))
}

/// The job of a command that needs no meter, if it is one.
pub fn other_job<'a>(matches: &ArgMatches<'a>) -> Option<Job<'a>>
    ensures some { IfSome result (Asks (subcommand_rows_of matches.now)) }
    ensures none { result ≡ None → IsNoneOf others (subcommand_rows_of matches.now) }
{
    if matches.subcommand_name() == Some("explain") {
        return Some(explain_job(matches));
    }
    if matches.subcommand_name() == Some("show") {
        return Some(show_job(matches));
    }
    if matches.subcommand_name() == Some("plot") {
        return Some(plot_job(matches));
    }
    if matches.subcommand_name() == Some("keys") {
        return Some(keys_job(matches));
    }
    if matches.subcommand_name() == Some("names") {
        return Some(names_job(matches));
    }
    if matches.subcommand_name() == Some("man") {
        return Some(Job::Man);
    }
    if matches.subcommand_name() == Some("completions") {
        return Some(completions_job(matches));
    }
    None
}
