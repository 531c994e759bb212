//! Texts that need no meter: the names of objects, the manual page and the completions.

use dlms_faults::Fault;
use dlms_manual::{completions, manual};
use dlms_names::{KnownObject, OBJECTS, code_name};
use dlms_words::Shell;
use std::alloc::{AllocError, Global};
use std::io::Write;

/// Prints a text that was made.
fn print<'a, W: Write>(made: Result<String, AllocError>, output: &mut W) -> Result<(), Fault<'a>> {
    let text = made?;
    match output.write_all(text.as_str().as_bytes()) {
        Ok(()) => Ok(()),
        Err(_) => Err(Fault::Output),
    }
}

/// Prints the manual page.
#[inline(never)]
pub fn print_manual<'a, W: Write>(alloc: Global, output: &mut W) -> Result<(), Fault<'a>> {
    print(manual(alloc), output)
}

/// Prints the completions of a shell.
#[inline(never)]
pub fn print_completions<'a, W: Write>(
    alloc: Global,
    shell: Shell,
    output: &mut W,
) -> Result<(), Fault<'a>> {
    print(completions(alloc, shell), output)
}

/// Whether a text has these small letters in it, in any case.
fn has(alloc: Global, text: &str, word: &str) -> Result<bool, AllocError> {
    let small = text.to_ascii_lowercase(alloc)?;
    Ok(small.as_str().contains(word))
}

/// The code of an object with points alone, and in the trade's form.
fn codes_of(alloc: Global, object: &KnownObject) -> Result<(String, String), AllocError> {
    let [a, b, c, d, e, f] = object.code;
    let points = format!(in alloc; "{a}.{b}.{c}.{d}.{e}.{f}")?;
    let trade = format!(in alloc; "{a}-{b}:{c}.{d}.{e}*{f}")?;
    Ok((points, trade))
}

/// Prints a line for an object, if its code, its alias or its name has a word of small letters in it; whether it has.
fn print_if_has<W: Write>(
    alloc: Global,
    object: &KnownObject,
    word: &str,
    output: &mut W,
) -> Result<bool, Fault<'static>> {
    let KnownObject { alias, code, class } = *object;
    let name = code_name(code).unwrap_or("");
    let (points, trade) = codes_of(alloc, object)?;
    let has_code = points.as_str().contains(word) || trade.as_str().contains(word);
    if !has_code && !has(alloc, alias, word)? && !has(alloc, name, word)? {
        return Ok(false);
    }
    let trade = trade.as_str();
    match writeln!(output, "{trade:<16}  {alias:<21}  {class:>2}  {name}") {
        Ok(()) => Ok(true),
        Err(_) => Err(Fault::Output),
    }
}

/// Prints the objects whose code, alias or name has a word in it, in any case.
#[inline(never)]
pub fn print_names<'a, W: Write>(
    alloc: Global,
    word: &'a str,
    output: &mut W,
) -> Result<(), Fault<'a>> {
    let small = word.to_ascii_lowercase(alloc)?;
    let mut is_found = false;
    for object in OBJECTS {
        if print_if_has(alloc, object, small.as_str(), output)? {
            is_found = true;
        }
    }
    if is_found {
        Ok(())
    } else {
        Err(Fault::Unnamed(word))
    }
}
