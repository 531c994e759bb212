//! A text about all commands and their arguments.

use crate::forms::{BASH, Escaping, FISH, Form, MANUAL, Piece, ZSH};
use dlms_words::{ABOUT, Argument, COMMANDS, CommandWords, Kind, Shell, VERSION};
use std::alloc::{AllocError, Global};

/// The name of an argument's value; that of a positional argument is its own.
fn value_name(argument: &Argument) -> &'static str {
    match argument.kind {
        Kind::Value | Kind::Wanted => argument.name,
        Kind::Flag | Kind::ShortFlag(_) => "",
        Kind::Option(value) | Kind::Needed(value) | Kind::Options(value) => value,
        Kind::Number(value, _, _) => value,
    }
}

/// The pieces that a form has for an argument of this kind.
fn pieces_for(form: &Form, kind: Kind) -> &'static [Piece] {
    match kind {
        Kind::Value | Kind::Wanted => form.positional,
        Kind::Flag | Kind::ShortFlag(_) => form.flag,
        _ => form.option,
    }
}

/// The words of a piece, about this command and, if there is one, this argument of it.
fn words_of(piece: Piece, command: &CommandWords, argument: Option<&Argument>) -> &'static str {
    match (piece, argument) {
        (Piece::Text(text), _) => text,
        (Piece::Version, _) => VERSION,
        (Piece::Program, _) => ABOUT,
        (Piece::Command, _) => command.name,
        (Piece::About, _) => command.about,
        (Piece::Notes, _) => command.notes,
        (Piece::Name, Some(argument)) => argument.name,
        (Piece::Value, Some(argument)) => value_name(argument),
        (Piece::Help, Some(argument)) => argument.help,
        (Piece::Name | Piece::Value | Piece::Help, None) => "",
    }
}

/// What stands for a character, if it does not stand for itself.
fn escaped(escaping: Escaping, character: char) -> Option<&'static str> {
    match (escaping, character) {
        (Escaping::Shell, '\'') => Some("'\\''"),
        (Escaping::Roff, '\\') => Some("\\e"),
        (Escaping::Roff, '-') => Some("\\-"),
        (Escaping::Roff, '\n') => Some("\n\\&"),
        _ => None,
    }
}

/// Appends words, with what stands for some of their characters.
fn put_words(text: &mut String, escaping: Escaping, words: &str) -> Result<(), AllocError> {
    for character in words.chars() {
        match escaped(escaping, character) {
            Some(other) => text.push_str(other)?,
            None => text.push(character)?,
        }
    }
    Ok(())
}

/// Appends pieces.
fn put(
    text: &mut String,
    form: &Form,
    pieces: &[Piece],
    command: &CommandWords,
    argument: Option<&Argument>,
) -> Result<(), AllocError> {
    for piece in pieces {
        let words = words_of(*piece, command, argument);
        match piece {
            Piece::Text(_) => text.push_str(words)?,
            _ => put_words(text, form.escaping, words)?,
        }
    }
    Ok(())
}

/// Appends what a form says of a command's arguments.
fn put_arguments(
    text: &mut String,
    form: &Form,
    command: &CommandWords,
    arguments: &[Argument],
) -> Result<(), AllocError> {
    for argument in arguments {
        let pieces = pieces_for(form, argument.kind);
        put(text, form, pieces, command, Some(argument))?;
    }
    Ok(())
}

/// Appends what a form says of a command.
fn put_command(text: &mut String, form: &Form, command: &CommandWords) -> Result<(), AllocError> {
    put(text, form, form.command, command, None)?;
    put_arguments(text, form, command, command.arguments)?;
    put_arguments(text, form, command, command.more)?;
    put(text, form, form.end, command, None)
}

/// Appends an entry for each command.
fn put_entries(
    text: &mut String,
    form: &Form,
    commands: &[CommandWords],
) -> Result<(), AllocError> {
    for command in commands {
        put(text, form, form.entry, command, None)?;
    }
    Ok(())
}

/// Appends the text of a form: its head, an entry for each command, and each command with its arguments.
fn put_page(text: &mut String, form: &Form, commands: &[CommandWords]) -> Result<(), AllocError> {
    if let Some(first) = commands.first() {
        put(text, form, form.head, first, None)?;
    }
    put_entries(text, form, commands)?;
    text.push_str(form.middle)?;
    for command in commands {
        put_command(text, form, command)?;
    }
    text.push_str(form.tail)
}

/// The text of a form.
fn page(alloc: Global, form: &Form) -> Result<String, AllocError> {
    let mut text = String::new(alloc);
    put_page(&mut text, form, &COMMANDS)?;
    Ok(text)
}

/// The manual page, in roff's man macros.
pub fn manual(alloc: Global) -> Result<String, AllocError> {
    page(alloc, &MANUAL)
}

/// The completions of a shell, as text that the shell reads.
pub fn completions(alloc: Global, shell: Shell) -> Result<String, AllocError> {
    match shell {
        Shell::Bash => page(alloc, &BASH),
        Shell::Zsh => page(alloc, &ZSH),
        Shell::Fish => page(alloc, &FISH),
    }
}
