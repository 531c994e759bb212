//! Options that exclude each other, and addresses that are invalid.
ghost use Rattle.std.specs.Prelude.{◌≡◌, ◌↔◌, option_map, IfNone, OnSome, IsTrue};
ghost use Rattle.clap.specs.Words.{subcommand_rows_of};
ghost use Rattle.dlms_words.specs.Words.{GivesClientTwice, NamesAnd, GivesBoth, AsksBoth, IsInvalid, NamesNoAddress, NamesNoColor, NamesNoShell, is_color, is_shell, value_in, NamesTwoPlaces, ReadsIdleCounter, CollectsBoth, CollectsNothing, ComparesToo, ShowsSecret, SizesMessages, WidensPort, ExpectsInClear, FillsReport, LaysOutReport, NamesBoth, NamesNoPlace, PagesNothing, PrintsReport, GivesAlone, NamesAlone};

use crate::addresses::{is_address, is_place};
use crate::values::{is_given, is_named, value_for};
use clap::ArgMatches;

/// The message if two clients are given.
const TWO_CLIENTS: &str = "the argument '--public' cannot be used with '--reader'";

/// The message if a client is given by its address and by its name.
const CLIENT_TWICE: &str = "the argument '--client' cannot be used with '--public' or '--reader'";

/// The message if a serial line is to carry the wrapper.
const WRAPPED_LINE: &str = "the argument '--line' cannot be used with '--wrapper'";

/// The message if a port and a serial line are given.
const TWO_PLACES: &str = "the argument '--listen' cannot be used with '--line'";

/// The message if a wrapper port is to be sent in four octets.
const WIDE_PORT: &str = "the argument '--wide' cannot be used with '--wrapper'";

/// The message if a size of frames is proposed, and the wrapper has none.
const NO_FRAMES: &str = "the argument '--information' cannot be used with '--wrapper'";

/// The message if an association is to be protected, and a secret is given.
const NO_SECRET: &str = "the argument '--security' cannot be used with '--secret-file'";

/// The message if the meter's last counter is to be read for an association that is not protected.
const NO_KEYS: &str = "the argument '--counter-from' cannot be used without '--security'";

/// The message if texts are expected of a meter that is to be asked for nothing in clear.
const EXPECTS_IN_CLEAR: &str = "the argument '--expect' cannot be used with '--security'";

/// The message if the meters of a list are to be polled and to be asked for attributes.
const TWO_PURPOSES: &str = "the argument '--get' cannot be used with '--readings'";

/// The message if they are, or one of them, and their clocks are to be compared.
const COMPARES_TOO: &str = "the argument '--clock' cannot be used with '--get' or '--readings'";

/// The message if none of the three is wanted.
const NO_PURPOSE: &str =
    "one of the arguments '--readings <DIR>', '--get <NAMES>' and '--clock' is required";

/// The message if clocks are to be set, and not compared.
const SETS_UNSEEN: &str = "the argument '--set' cannot be used without '--clock'";

/// The message if it is given how far off a clock may be, and none is to be set.
const SETS_NOTHING: &str = "the argument '--threshold' cannot be used without '--set'";

/// The message if a report is wanted, and how a text is printed.
const TEXT_OF_REPORT: &str =
    "the argument '--html' cannot be used with '--json', '--short', '--hex', '--raw', '--keys' or '--color'";

/// The message if a page is named for no report.
const NO_REPORT: &str = "the argument '--page' cannot be used without '--html'";

/// The message if two days of captures are asked for.
const TWO_DEMOS: &str = "the argument '--demo' cannot be used with '--demo-day'";

/// The message if the address to listen on is invalid.
const NO_ADDRESS: &str = "an address is expected as HOST:PORT, with a port of 0 to 65535";

/// The message for a word that is not a meter's place.
const NO_PLACE: &str =
    "a place is expected as HOST:PORT, /dev/.. or wrapper://HOST:PORT, with a port of 0 to 65535";

/// The message if a meter is named by a serial line of another system.
const NO_DEVICE: &str =
    "a serial line is expected by its path, which begins with /, as /dev/ttyUSB0";

/// The message if it is said when to color, and by another word.
const NO_COLOR: &str = "the value of '--color' is expected to be auto, always or never";

/// The message if completions are wanted for another shell.
const NO_SHELL: &str = "a shell is expected: bash, zsh or fish";

/// Whether two flags of a command were given.
fn gives_both(matches: &ArgMatches<'_>, command: &str, first: &str, second: &str) -> bool
    ensures { IsTrue result ↔ GivesBoth command.now first.now second.now
        (subcommand_rows_of matches.now) }
{
    if matches.subcommand_name() != Some(command) {
        return false;
    }
    let is_first = is_given(value_for(matches, command, first));
    let is_second = is_given(value_for(matches, command, second));
    is_first && is_second
}

/// Whether an option of a command was named, and a flag was given.
fn names_and(matches: &ArgMatches<'_>, command: &str, option: &str, flag: &str) -> bool
    ensures { IsTrue result ↔ NamesAnd command.now option.now flag.now
        (subcommand_rows_of matches.now) }
{
    if matches.subcommand_name() != Some(command) {
        return false;
    }
    let is_option = is_named(matches, command, option);
    let is_flag = is_given(value_for(matches, command, flag));
    is_option && is_flag
}

/// Whether two options of a command were named.
fn names_both(matches: &ArgMatches<'_>, command: &str, first: &str, second: &str) -> bool
    ensures { IsTrue result ↔ NamesBoth command.now first.now second.now
        (subcommand_rows_of matches.now) }
{
    if matches.subcommand_name() != Some(command) {
        return false;
    }
    let has_first = is_named(matches, command, first);
    let has_second = is_named(matches, command, second);
    has_first && has_second
}

/// Whether a flag of a command was given without the other one.
fn gives_alone(matches: &ArgMatches<'_>, command: &str, flag: &str, other: &str) -> bool
    ensures { IsTrue result ↔ GivesAlone command.now flag.now other.now
        (subcommand_rows_of matches.now) }
{
    if matches.subcommand_name() != Some(command) {
        return false;
    }
    let is_flag = is_given(value_for(matches, command, flag));
    let is_other = is_given(value_for(matches, command, other));
    is_flag && !is_other
}

/// Whether an option of a command was named without a flag.
fn names_alone(matches: &ArgMatches<'_>, command: &str, option: &str, flag: &str) -> bool
    ensures { IsTrue result ↔ NamesAlone command.now option.now flag.now
        (subcommand_rows_of matches.now) }
{
    if matches.subcommand_name() != Some(command) {
        return false;
    }
    let is_option = is_named(matches, command, option);
    let is_flag = is_given(value_for(matches, command, flag));
    is_option && !is_flag
}

/// Whether a report is wanted, and a layout of its text.
fn lays_out_report(matches: &ArgMatches<'_>) -> bool
    ensures { IsTrue result ↔ LaysOutReport (subcommand_rows_of matches.now) }
{
    names_and(matches, "explain", "html", "json")
        || names_and(matches, "explain", "html", "short")
        || names_and(matches, "explain", "html", "hex")
}

/// Whether a report is wanted, and what its text shows.
fn fills_report(matches: &ArgMatches<'_>) -> bool
    ensures { IsTrue result ↔ FillsReport (subcommand_rows_of matches.now) }
{
    names_and(matches, "explain", "html", "raw")
        || names_both(matches, "explain", "html", "keys")
        || names_both(matches, "explain", "html", "color")
}

/// Whether a report is wanted, which is explained once it is opened, and how its text is printed.
fn prints_report(matches: &ArgMatches<'_>) -> bool
    ensures { IsTrue result ↔ PrintsReport (subcommand_rows_of matches.now) }
{
    lays_out_report(matches) || fills_report(matches)
}

/// Whether a page is named for no report.
fn pages_nothing(matches: &ArgMatches<'_>) -> bool
    ensures { IsTrue result ↔ PagesNothing (subcommand_rows_of matches.now) }
{
    if matches.subcommand_name() != Some("explain") {
        return false;
    }
    let has_page = is_named(matches, "explain", "page");
    let has_report = is_named(matches, "explain", "html");
    has_page && !has_report
}

/// Whether a client is given by its address and by its name.
fn gives_client_twice(matches: &ArgMatches<'_>) -> bool
    ensures { IsTrue result ↔ GivesClientTwice (subcommand_rows_of matches.now) }
{
    names_and(matches, "poll", "client", "public") || names_and(matches, "poll", "client", "reader")
}

/// Whether a port and a serial line are named at once.
fn names_two_places(matches: &ArgMatches<'_>) -> bool
    ensures { IsTrue result ↔ NamesTwoPlaces (subcommand_rows_of matches.now) }
{
    if matches.subcommand_name() != Some("serve") {
        return false;
    }
    let listen = is_named(matches, "serve", "listen");
    let line = is_named(matches, "serve", "line");
    listen && line
}

/// Whether a wrapper port is to be sent in four octets, as an address of HDLC may be.
fn widens_port(matches: &ArgMatches<'_>) -> bool
    ensures { IsTrue result ↔ WidensPort (subcommand_rows_of matches.now) }
{
    let Some(command) = matches.subcommand_name() else {
        return false;
    };
    let is_wide = is_given(value_for(matches, command, "wide"));
    let is_wrapped = is_given(value_for(matches, command, "wrapper"));
    is_wide && is_wrapped
}

/// Whether a size of frames is proposed, and the line carries the wrapper, which has none.
fn sizes_messages(matches: &ArgMatches<'_>) -> bool
    ensures { IsTrue result ↔ SizesMessages (subcommand_rows_of matches.now) }
{
    let Some(command) = matches.subcommand_name() else {
        return false;
    };
    let is_sized = is_named(matches, command, "information");
    let is_wrapped = is_given(value_for(matches, command, "wrapper"));
    is_sized && is_wrapped
}

/// Whether the association is to be protected, and a secret is to be sent in clear.
fn shows_secret(matches: &ArgMatches<'_>) -> bool
    ensures { IsTrue result ↔ ShowsSecret (subcommand_rows_of matches.now) }
{
    let Some(command) = matches.subcommand_name() else {
        return false;
    };
    let is_protected = is_named(matches, command, "security");
    let has_secret = is_named(matches, command, "secret-file");
    is_protected && has_secret
}

/// Whether the meter's last counter is to be read for an association that is not protected.
fn reads_idle_counter(matches: &ArgMatches<'_>) -> bool
    ensures { IsTrue result ↔ ReadsIdleCounter (subcommand_rows_of matches.now) }
{
    let Some(command) = matches.subcommand_name() else {
        return false;
    };
    let reads_counter = is_named(matches, command, "counter-from");
    let is_protected = is_named(matches, command, "security");
    reads_counter && !is_protected
}

/// Whether texts are expected of a meter, for which it is asked in clear, and the association is to be protected.
fn expects_in_clear(matches: &ArgMatches<'_>) -> bool
    ensures { IsTrue result ↔ ExpectsInClear (subcommand_rows_of matches.now) }
{
    let Some(command) = matches.subcommand_name() else {
        return false;
    };
    let expects = is_named(matches, command, "expect");
    let is_protected = is_named(matches, command, "security");
    expects && is_protected
}

/// Whether the meters of a list are to be polled, and to be asked for attributes.
fn collects_both(matches: &ArgMatches<'_>) -> bool
    ensures { IsTrue result ↔ CollectsBoth (subcommand_rows_of matches.now) }
{
    if matches.subcommand_name() != Some("collect") {
        return false;
    }
    let polls = is_named(matches, "collect", "readings");
    let gets = is_named(matches, "collect", "get");
    polls && gets
}

/// Whether their clocks are to be compared, and they are to be polled, or to be asked for attributes.
fn compares_too(matches: &ArgMatches<'_>) -> bool
    ensures { IsTrue result ↔ ComparesToo (subcommand_rows_of matches.now) }
{
    names_and(matches, "collect", "readings", "clock")
        || names_and(matches, "collect", "get", "clock")
}

/// Whether none of the three is wanted.
fn collects_nothing(matches: &ArgMatches<'_>) -> bool
    ensures { IsTrue result ↔ CollectsNothing (subcommand_rows_of matches.now) }
{
    if matches.subcommand_name() != Some("collect") {
        return false;
    }
    let polls = is_named(matches, "collect", "readings");
    let gets = is_named(matches, "collect", "get");
    let compares = is_given(value_for(matches, "collect", "clock"));
    !polls && !gets && !compares
}

/// The message if two are given and one is wanted, or one is given that needs another.
pub fn conflict(matches: &ArgMatches<'_>) -> Option<&'static str>
    ensures some { OnSome result (AsksBoth (subcommand_rows_of matches.now)) }
    ensures none { IfNone result (AsksBoth (subcommand_rows_of matches.now) → ⊥) }
{
    if gives_both(matches, "poll", "public", "reader") {
        return Some(TWO_CLIENTS);
    }
    if gives_client_twice(matches) {
        return Some(CLIENT_TWICE);
    }
    if names_two_places(matches) {
        return Some(TWO_PLACES);
    }
    if names_and(matches, "serve", "line", "wrapper") {
        return Some(WRAPPED_LINE);
    }
    if gives_both(matches, "format", "demo", "demo-day") {
        return Some(TWO_DEMOS);
    }
    if widens_port(matches) {
        return Some(WIDE_PORT);
    }
    if sizes_messages(matches) {
        return Some(NO_FRAMES);
    }
    if shows_secret(matches) {
        return Some(NO_SECRET);
    }
    if reads_idle_counter(matches) {
        return Some(NO_KEYS);
    }
    if expects_in_clear(matches) {
        return Some(EXPECTS_IN_CLEAR);
    }
    if collects_both(matches) {
        return Some(TWO_PURPOSES);
    }
    if compares_too(matches) {
        return Some(COMPARES_TOO);
    }
    if collects_nothing(matches) {
        return Some(NO_PURPOSE);
    }
    if prints_report(matches) {
        return Some(TEXT_OF_REPORT);
    }
    if pages_nothing(matches) {
        return Some(NO_REPORT);
    }
    if gives_alone(matches, "collect", "set", "clock") {
        return Some(SETS_UNSEEN);
    }
    if names_alone(matches, "collect", "threshold", "set") {
        return Some(SETS_NOTHING);
    }
    None
}

/// What was found for this value of the command.
fn value_in<'a>(matches: &ArgMatches<'a>, id: &str) -> Option<&'a str>
    ensures { option_map (λ text. text.now) result ≡ value_in id.now
        (subcommand_rows_of matches.now) }
{
    let command = matches.subcommand_name()?;
    value_for(matches, command, id)
}

/// Whether a word says when to color.
fn is_color(text: &str) -> bool
    ensures { result ≡ is_color text.now }
{
    text == "auto" || text == "always" || text == "never"
}

/// Whether a word is the name of a shell.
fn is_shell(text: &str) -> bool
    ensures { result ≡ is_shell text.now }
{
    text == "bash" || text == "zsh" || text == "fish"
}

/// Whether it is said when to color, and by another word.
fn names_no_color(matches: &ArgMatches<'_>) -> bool
    ensures { IsTrue result ↔ NamesNoColor (subcommand_rows_of matches.now) }
{
    match value_in(matches, "color") {
        Some(text) => !is_color(text),
        None => false,
    }
}

/// Whether completions are wanted for another shell.
fn names_no_shell(matches: &ArgMatches<'_>) -> bool
    ensures { IsTrue result ↔ NamesNoShell (subcommand_rows_of matches.now) }
{
    match value_in(matches, "SHELL") {
        Some(text) => !is_shell(text),
        None => false,
    }
}

/// Whether the address to listen on is invalid.
fn names_no_address(matches: &ArgMatches<'_>) -> bool
    ensures { IsTrue result ↔ NamesNoAddress (subcommand_rows_of matches.now) }
{
    match value_in(matches, "listen") {
        Some(text) => !is_address(text.as_bytes()),
        None => false,
    }
}

/// Whether the word for the meter is not a place.
fn names_no_place(matches: &ArgMatches<'_>) -> bool
    ensures { IsTrue result ↔ NamesNoPlace (subcommand_rows_of matches.now) }
{
    match value_in(matches, "PLACE") {
        Some(text) => !is_place(text),
        None => false,
    }
}

/// The message for a word that is not a place.
fn place_message(matches: &ArgMatches<'_>) -> &'static str {
    match value_in(matches, "PLACE") {
        Some(text) if text.starts_with("COM") => NO_DEVICE,
        _ => NO_PLACE,
    }
}

/// The message if a value is invalid.
pub fn invalid_value(matches: &ArgMatches<'_>) -> Option<&'static str>
    ensures some { OnSome result (IsInvalid (subcommand_rows_of matches.now)) }
    ensures none { IfNone result (IsInvalid (subcommand_rows_of matches.now) → ⊥) }
{
    if names_no_address(matches) {
        return Some(NO_ADDRESS);
    }
    if names_no_place(matches) {
        return Some(place_message(matches));
    }
    if names_no_color(matches) {
        return Some(NO_COLOR);
    }
    if names_no_shell(matches) {
        return Some(NO_SHELL);
    }
    None
}
