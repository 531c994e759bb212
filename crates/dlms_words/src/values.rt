//! The values that `clap` found for a command.
ghost use Rattle.std.specs.Prelude.{◌≡◌, List, Some, option_map, is_some, slice_get};
ghost use Rattle.clap.specs.Words.{all_of, first_of, Row, subcommand_rows_of};
ghost use Rattle.dlms_words.specs.Words.{MaySay, MaySayFor, table_format, nth_of, output_format, IsSaid, IsSaidFor, Says, SaysAhead, SaysStops, value_format, color_by, shell_by};

use crate::commands::{ColorChoice, OutputFormat, Shell, TableFormat, ValueFormat};
use crate::defaults::AHEAD;
use clap::ArgMatches;

/// What was found for one of a command's values, if it was.
pub fn value_for<'a>(matches: &ArgMatches<'a>, command: &str, id: &str) -> Option<&'a str>
    ensures { (rows : List Row) → subcommand_rows_of matches.now ≡ Some (command.now, rows)
        → option_map (λ value. value.now) result ≡ first_of id.now rows }
{
    matches.subcommand_matches(command)?.get_str(id)
}

/// The text at this place, if there are so many.
fn text_at<'a>(texts: &[&'a str], place: usize) -> Option<&'a str>
    ensures { result ≡ slice_get texts.now place }
{
    texts.get(place).copied()
}

/// The text at this place, from 0 on, among those that were found for one of a command's values, if there are so many.
pub fn nth_for<'a>(
    matches: &ArgMatches<'a>,
    command: &str,
    id: &str,
    place: usize,
) -> Option<&'a str>
    ensures { (rows : List Row) → subcommand_rows_of matches.now ≡ Some (command.now, rows)
        → option_map (λ value. value.now) result ≡ nth_of place (all_of id.now rows) }
{
    let texts = matches.subcommand_matches(command)?.get_strs(id)?;
    text_at(texts, place)
}

/// The count of stops that was said.
pub fn stops(said: Option<&str>) -> u8
    ensures { SaysStops (option_map (λ text. text.now) said.entry) result }
{
    match said {
        Some(text) => text.parse::<u8>().unwrap_or(0),
        None => 0,
    }
}

/// The number that was given; if none was, this one. If `clap` takes what is no `u32`, it is a zero with a minus.
fn number(said: Option<&str>, other: u32) -> u32
    ensures { Says 32 other (option_map (λ text. text.now) said.entry) result }
{
    match said {
        Some(text) => text.parse::<u32>().unwrap_or(0),
        None => other,
    }
}

/// The number given for one of a command's values; if none was, this one.
pub fn number_for(matches: &ArgMatches<'_>, command: &str, id: &str, other: u32) -> u32
    ensures { (rows : List Row) → subcommand_rows_of matches.now ≡ Some (command.now, rows)
        → IsSaidFor id.now rows other result }
{
    number(value_for(matches, command, id), other)
}

/// The number, if one was given.
fn given_number(said: Option<&str>) -> Option<u32>
    ensures { MaySay (option_map (λ text. text.now) said.entry) result }
{
    match said {
        Some(_) => Some(number(said, 0)),
        None => None,
    }
}

/// The number given for one of a command's values, if one was.
pub fn given_number_for(matches: &ArgMatches<'_>, command: &str, id: &str) -> Option<u32>
    ensures { (rows : List Row) → subcommand_rows_of matches.now ≡ Some (command.now, rows)
        → MaySayFor id.now rows result }
{
    given_number(value_for(matches, command, id))
}

/// By how many seconds a row may be past the system's clock, if that is checked.
pub fn ahead(checks: bool, said: Option<&str>) -> Option<u32>
    ensures { SaysAhead checks (option_map (λ text. text.now) said.entry) result }
{
    match said {
        Some(_) => Some(number(said, AHEAD)),
        None if checks => Some(AHEAD),
        None => None,
    }
}

/// Whether a flag was given.
pub fn is_given(said: Option<&str>) -> bool
    ensures { IsSaid (option_map (λ text. text.now) said.entry) result }
{
    said == Some("true")
}

/// Whether one of a command's values was named.
pub fn is_named(matches: &ArgMatches<'_>, command: &str, id: &str) -> bool
    ensures { (rows : List Row) → subcommand_rows_of matches.now ≡ Some (command.now, rows)
        → result ≡ is_some (first_of id.now rows) }
{
    value_for(matches, command, id).is_some()
}

/// How values are printed, by the flags that were given: `raw` comes before `json`.
pub fn value_format(raw: bool, json: bool) -> ValueFormat
    ensures { result ≡ value_format raw json }
{
    match (raw, json) {
        (true, _) => ValueFormat::Encoding,
        (false, true) => ValueFormat::Json,
        (false, false) => ValueFormat::Text,
    }
}

/// How a profile is printed, by the flags that were given: `json` comes before `csv`.
pub fn table_format(csv: bool, json: bool) -> TableFormat
    ensures { result ≡ table_format csv json }
{
    match (csv, json) {
        (_, true) => TableFormat::Json,
        (true, false) => TableFormat::Csv,
        (false, false) => TableFormat::Table,
    }
}

/// How the output is printed, by the flag that was given.
pub fn output_format(json: bool) -> OutputFormat
    ensures { result ≡ output_format json }
{
    if json {
        OutputFormat::Json
    } else {
        OutputFormat::Text
    }
}

/// When an explanation is colored: never and always if that was said, otherwise on a terminal.
pub fn color_choice(said: Option<&str>) -> ColorChoice
    ensures { result ≡ color_by (option_map (λ text. text.now) said.entry) }
{
    match said {
        Some(text) => {
            if text == "always" {
                ColorChoice::Always
            } else if text == "never" {
                ColorChoice::Never
            } else {
                ColorChoice::Auto
            }
        }
        None => ColorChoice::Auto,
    }
}

/// The shell that was named: bash, if it is neither of the others.
pub fn shell(said: Option<&str>) -> Shell
    ensures { result ≡ shell_by (option_map (λ text. text.now) said.entry) }
{
    match said {
        Some(text) => {
            if text == "zsh" {
                Shell::Zsh
            } else if text == "fish" {
                Shell::Fish
            } else {
                Shell::Bash
            }
        }
        None => Shell::Bash,
    }
}
