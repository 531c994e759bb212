//! The commands of `clap`, made from the table.

ghost use Rattle.std.specs.Prelude.{◌≡◌, IfOk, false, map};
ghost use Rattle.clap.specs.Words.{app_of};
ghost use Rattle.clap.specs.declared.builder.command.Command.TheViews.{out-Command as fields_of};
ghost use Rattle.dlms_words.specs.Grammar.{AreAllLocal, app_for, dlms, top};

use crate::arguments::{with_arguments, with_commands};
use crate::help::ABOUT;
use crate::table::{COMMANDS, CommandWords, VERSION};
use clap::Command;
use std::alloc::{AllocError, Global};

/// The heading of the arguments that say which meter is asked, and by which client.
const MORE: &str = "Meter and client";

/// The command of these words.
fn command<'a>(alloc: Global, words: &CommandWords) -> Result<Command<'a>, AllocError>
    ensures shape { IfOk result (λ c. app_of c ≡ app_for words.now) }
    ensures local { IfOk result (λ c. (fields_of c).has_globals ≡ false) }
{
    let command = Command::new(alloc, words.name)
        .about(words.about)
        .after_help(words.notes);
    let command = with_arguments(alloc, command, words.arguments, None)?;
    with_arguments(alloc, command, words.more, Some(MORE))
}

/// The commands of these words.
fn commands<'a>(alloc: Global, table: &[CommandWords]) -> Result<Vec<Command<'a>>, AllocError>
    ensures apps { IfOk result (λ commands. map app_of commands.items ≡ map app_for table.now) }
    ensures local { IfOk result (λ commands. AreAllLocal commands.items) }
{
    let mut commands = Vec::new(alloc);
    for words in table {
        let command = command(alloc, words)?;
        commands.push(command)?;
    }
    Ok(commands)
}

/// The program without its commands, of which one is wanted.
fn top<'a>(alloc: Global) -> Command<'a>
    ensures { app_of result ≡ top }
{
    Command::new(alloc, "dlms")
        .about(ABOUT)
        .version(VERSION)
        .disable_help_subcommand(true)
        .arg_required_else_help(true)
        .subcommand_required(true)
}

/// The program's commands.
pub fn program<'a>(alloc: Global) -> Result<Command<'a>, AllocError>
    ensures { IfOk result (λ c. app_of c ≡ dlms) }
{
    let commands = commands(alloc, &COMMANDS)?;
    with_commands(top(alloc), commands)
}
