//! The program: a meter in a file or in memory, and what reads it.
#![tactic(auto)]

use dlms_command::{Fault, Terminals, finish, run};
use std::alloc::{AllocError, Allocator};
use std::env::VarError;
use std::io::IsTerminal;
use std::process::ExitCode;
use std::rt::Env;
use std::{env, io};
use streams::StandIns;

mod streams;

/// The words that the program was started with.
fn words_of<R: Env + AllocGlobal>(rt: &R) -> Result<Vec<String>, AllocError> {
    match env::args(rt) {
        Ok(args) => args.collect(rt.alloc()),
        Err(_) => Ok(Vec::new(rt.alloc())),
    }
}

/// The same words, each as a `str`.
fn slices_of<'a, A: Allocator>(
    alloc: A,
    words: &'a [String],
) -> Result<Vec<&'a str, A>, AllocError> {
    let mut slices = Vec::new(alloc);
    for word in words {
        slices.push(word.as_str())?;
    }
    Ok(slices)
}

/// Whether the environment says that no colors are wanted (<https://no-color.org>). Out of memory is taken so too.
fn is_plain<R: Env + AllocGlobal>(rt: &R) -> bool {
    match env::var(rt, "NO_COLOR") {
        Ok(value) => {
            let is_plain = !value.is_empty();
            drop(value);
            is_plain
        }
        Err(VarError::OutOfMemory) => true,
        Err(_) => false,
    }
}

/// Carries out the job of the arguments, on the standard streams.
fn status_by(rt: &HostRuntime, words: &[&str]) -> io::Result<u8> {
    let mut errors = rt.stderr();
    let terminals = Terminals {
        output: rt.stdout().is_terminal(),
        errors: errors.is_terminal(),
        is_plain: is_plain(rt),
    };
    let mut output = io::writer(rt);
    run(
        rt,
        words,
        &mut rt.stdin(),
        &mut output,
        &mut errors,
        terminals,
    )
}

/// Says that memory is wanting.
fn status_without_memory(rt: &HostRuntime) -> io::Result<u8> {
    finish(rt.alloc(), false, Err(Fault::MEMORY), &mut rt.stderr())
}

/// Does what these words ask for.
fn status_for(rt: &HostRuntime, owned: &[String]) -> io::Result<u8> {
    match slices_of(rt.alloc(), owned) {
        Ok(words) => {
            let status = status_by(rt, words.as_slice());
            drop(words);
            status
        }
        Err(_) => status_without_memory(rt),
    }
}

/// Carries out the job of the program's arguments.
fn status_of(rt: &HostRuntime) -> io::Result<u8> {
    match words_of(rt) {
        Ok(owned) => {
            let status = status_for(rt, owned.as_slice());
            drop(owned);
            status
        }
        Err(_) => status_without_memory(rt),
    }
}

fn main(rt: HostRuntime) -> io::Result<ExitCode> {
    let stand_ins = StandIns::open(&rt);
    let status = status_of(&rt);
    drop(stand_ins);
    Ok(ExitCode::from(status?))
}
