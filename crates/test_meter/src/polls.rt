//! Polls a meter: over lines that lose, cut and repeat frames; over a socket of this machine; and around stops of its power. Asks it to
//! capture over a line that loses the answer.

mod capture;
mod lines;
mod poll;
mod site;
mod stops;
mod wire;

use anyhow::Result;
use dlms_filing::FilePlace;
use dlms_loopback::{loopback, sockets};
use std::io;

/// Runs all of it, and returns whether each outcome is as expected.
pub fn run(rt: &HostRuntime) -> Result<bool> {
    let differing = lines::run(rt)?;
    let mut told = None;
    let looped = loopback(
        rt.alloc(),
        &mut FilePlace::of(rt),
        &mut sockets(rt),
        None,
        2,
        &mut io::writer(rt),
        &mut told,
    );
    let stopped = stops::run(rt)?;
    let is_captured_once = capture::run(rt, rt.alloc())?;
    Ok(differing == 0 && looped.is_ok() && stopped == 0 && is_captured_once)
}
