//! The arguments of a command, and a command with them.

ghost use Rattle.std.specs.Prelude.{◌≡◌, false, IfOk, map};
ghost use Rattle.clap.specs.Words.{app_of, rule_of};
ghost use Rattle.clap.specs.declared.builder.command.Command.TheViews.{out-Command as fields_of};
ghost use Rattle.dlms_words.specs.Grammar.{AreLocal, AreAllLocal, flag_rule, needed_rule, number_rule, option_rule, options_rule, rule_for, short_flag_rule, value_rule, wanted_rule, with_commands, with_rules};

use clap::builder::ValueParser;
use clap::{Arg, ArgAction, Command};
use std::alloc::{AllocError, Global};

/// A positional argument that may be left out.
fn value<'a>(alloc: Global, name: &'a str, help: &'a str) -> Arg<'a>
    ensures rule { rule_of result ≡ value_rule name.entry.now }
    ensures local { result.global ≡ false }
{
    Arg::new(alloc, name).help(help)
}

/// A positional argument that is required.
fn wanted<'a>(alloc: Global, name: &'a str, help: &'a str) -> Arg<'a>
    ensures rule { rule_of result ≡ wanted_rule name.entry.now }
    ensures local { result.global ≡ false }
{
    Arg::new(alloc, name).required(true).help(help)
}

/// A flag, `--NAME`.
fn flag<'a>(alloc: Global, name: &'a str, help: &'a str) -> Arg<'a>
    ensures rule { rule_of result ≡ flag_rule name.entry.now }
    ensures local { result.global ≡ false }
{
    Arg::new(alloc, name)
        .long(name)
        .action(ArgAction::SetTrue)
        .help(help)
}

/// A flag, `--NAME` or `-L`.
fn short_flag<'a>(alloc: Global, name: &'a str, letter: char, help: &'a str) -> Arg<'a>
    ensures rule { rule_of result ≡ short_flag_rule name.entry.now letter }
    ensures local { result.global ≡ false }
{
    flag(alloc, name, help).short(letter)
}

/// An option, `--NAME VALUE`.
fn option<'a>(alloc: Global, name: &'a str, value: &'a str, help: &'a str) -> Arg<'a>
    ensures rule { rule_of result ≡ option_rule name.entry.now }
    ensures local { result.global ≡ false }
{
    Arg::new(alloc, name)
        .long(name)
        .value_name(value)
        .help(help)
}

/// An option that is required, `--NAME VALUE`.
fn needed<'a>(alloc: Global, name: &'a str, value: &'a str, help: &'a str) -> Arg<'a>
    ensures rule { rule_of result ≡ needed_rule name.entry.now }
    ensures local { result.global ≡ false }
{
    option(alloc, name, value, help).required(true)
}

/// An option that may be given several times, `--NAME VALUE --NAME VALUE`.
fn options<'a>(alloc: Global, name: &'a str, value: &'a str, help: &'a str) -> Arg<'a>
    ensures rule { rule_of result ≡ options_rule name.entry.now }
    ensures local { result.global ≡ false }
{
    option(alloc, name, value, help).action(ArgAction::Append)
}

/// An option whose value is a number of this range.
fn number<'a>(
    alloc: Global,
    name: &'a str,
    value: &'a str,
    least: u32,
    most: u32,
    help: &'a str,
) -> Arg<'a>
    ensures rule { rule_of result ≡ number_rule name.entry.now least most }
    ensures local { result.global ≡ false }
{
    let range = ValueParser::signed(i64::from(least), i64::from(most));
    option(alloc, name, value, help).value_parser(range)
}

/// The kind of an argument.
#[derive(Clone, Copy)]
pub enum Kind {
    /// A positional argument that may be left out.
    Value,
    /// A positional argument that is required.
    Wanted,
    /// A flag, `--NAME`.
    Flag,
    /// A flag, `--NAME`, or this letter after one dash.
    ShortFlag(char),
    /// An option, `--NAME VALUE`, with this name for its value.
    Option(&'static str),
    /// An option that is required, with this name for its value.
    Needed(&'static str),
    /// An option that may be given several times, with this name for its value.
    Options(&'static str),
    /// An option with this name for its value, which is a number from the first to the second.
    Number(&'static str, u32, u32),
}

/// An argument of a command: its name, its kind, and its help.
#[derive(Clone, Copy)]
pub struct Argument {
    pub name: &'static str,
    pub kind: Kind,
    pub help: &'static str,
}

/// One argument, under no heading.
fn plain_argument<'a>(alloc: Global, given: &Argument) -> Arg<'a>
    ensures rule { rule_of result ≡ rule_for given.now }
    ensures local { result.global ≡ false }
{
    let Argument { name, kind, help } = *given;
    match kind {
        Kind::Value => value(alloc, name, help),
        Kind::Wanted => wanted(alloc, name, help),
        Kind::Flag => flag(alloc, name, help),
        Kind::ShortFlag(letter) => short_flag(alloc, name, letter, help),
        Kind::Option(value) => option(alloc, name, value, help),
        Kind::Needed(value) => needed(alloc, name, value, help),
        Kind::Options(value) => options(alloc, name, value, help),
        Kind::Number(value, least, most) => number(alloc, name, value, least, most, help),
    }
}

/// One argument, under this heading of the help, if one is given.
fn argument_for<'a>(alloc: Global, given: &Argument, heading: Option<&'static str>) -> Arg<'a>
    ensures rule { rule_of result ≡ rule_for given.now }
    ensures local { result.global ≡ false }
{
    let argument = plain_argument(alloc, given);
    match heading {
        Some(text) => argument.help_heading(text),
        None => argument,
    }
}

/// Arguments, one after another.
fn arguments<'a>(
    alloc: Global,
    given: &[Argument],
    heading: Option<&'static str>,
) -> Result<Vec<Arg<'a>>, AllocError>
    ensures rules { IfOk result
        (λ arguments. map rule_of arguments.items ≡ map rule_for given.now) }
    ensures local { IfOk result (λ arguments. AreLocal arguments.items) }
{
    let mut arguments = Vec::new(alloc);
    for one in given {
        arguments.push(argument_for(alloc, one, heading))?;
    }
    Ok(arguments)
}

/// The command with these arguments, one after another, under this heading of the help, if one is given.
pub fn with_arguments<'a>(
    alloc: Global,
    command: Command<'a>,
    given: &[Argument],
    heading: Option<&'static str>,
) -> Result<Command<'a>, AllocError>
    ensures shape { IfOk result (λ c. app_of c ≡ with_rules (app_of command.entry)
        (map rule_for given.now)) }
    ensures local { (fields_of command.entry).has_globals ≡ false
        → IfOk result (λ c. (fields_of c).has_globals ≡ false) }
{
    let arguments = arguments(alloc, given, heading)?;
    command.args(arguments)
}

/// The program with these commands, one after another.
pub fn with_commands<'a>(
    program: Command<'a>,
    commands: Vec<Command<'a>>,
) -> Result<Command<'a>, AllocError>
    requires { AreAllLocal commands.items }
    ensures { IfOk result (λ c. app_of c ≡ with_commands (app_of program.entry)
        (map app_of commands.entry.items)) }
{
    program.subcommands(commands)
}
