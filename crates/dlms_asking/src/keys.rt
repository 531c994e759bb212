//! The file of frame counters that a client's settings name: made, or shown.

use dlms_faults::Fault;
use dlms_keys::{
    Settings, Stations, counters_path, make_counters, open_counters, read_settings, read_stations,
};
use dlms_security::{Form, Policy};
use dlms_words::KeysOptions;
use std::fs::{File, Files};
use std::io;
use std::io::Write;
use std::path::PathBuf;

/// The word of a policy.
fn policy_word(policy: Policy) -> &'static str {
    match policy {
        Policy::Authenticated => "authenticated",
        Policy::Encrypted => "encrypted",
        Policy::AuthenticatedEncrypted => "authenticated-encrypted",
    }
}

/// The word of a ciphered form.
fn form_word(form: Form) -> &'static str {
    match form {
        Form::Service => "service",
        Form::General => "general",
    }
}

/// Writes octets as hexadecimal digits.
fn write_octets<W: Write>(output: &mut W, octets: &[u8]) -> io::Result<()> {
    for octet in octets {
        write!(output, "{octet:02X}")?;
    }
    Ok(())
}

/// The settings of a file.
#[inline(never)]
fn settings_of<'a, H: Files + AllocGlobal>(host: &H, file: &'a str) -> Result<Settings, Fault<'a>> {
    match read_settings(host, file) {
        Ok(settings) => Ok(settings),
        Err(fault) => Err(Fault::of_keys(host.alloc(), file, fault)),
    }
}

/// The stations of a file of keys.
#[inline(never)]
pub fn stations_of<'a, H: Files + AllocGlobal>(
    host: &H,
    file: &'a str,
) -> Result<Stations, Fault<'a>> {
    match read_stations(host, file) {
        Ok(stations) => Ok(stations),
        Err(fault) => Err(Fault::of_keys(host.alloc(), file, fault)),
    }
}

/// Says that the file of counters was made.
fn report_new<W: Write>(output: &mut W, path: &PathBuf, first: u32) -> io::Result<()> {
    let path = path.as_str();
    writeln!(output, "made {path}: the first counter is {first}")
}

/// Makes the file of counters.
#[inline(never)]
fn make<'a, H: Files<File = File> + AllocGlobal, W: Write>(
    host: &H,
    options: &KeysOptions<'a>,
    path: &PathBuf,
    settings: &Settings,
    output: &mut W,
) -> Result<(), Fault<'a>> {
    match make_counters(host, path.as_str(), settings, options.first) {
        Ok(counters) => drop(counters),
        Err(fault) => return Err(Fault::of_counters_file(host.alloc(), options.file, fault)),
    }
    match report_new(output, path, options.first) {
        Ok(()) => Ok(()),
        Err(_) => Err(Fault::Output),
    }
}

/// Says what settings and counters are, without the keys.
fn report<W: Write>(
    output: &mut W,
    settings: &Settings,
    path: &PathBuf,
    reserved: u32,
) -> io::Result<()> {
    write!(output, "title ")?;
    write_octets(output, &settings.title)?;
    let policy = policy_word(settings.policy);
    let form = form_word(settings.messages);
    let dedicated = if settings.dedicated { "yes" } else { "no" };
    let path = path.as_str();
    writeln!(
        output,
        "\npolicy {policy}\nmessages {form}\ndedicated key {dedicated}"
    )?;
    writeln!(
        output,
        "counters {path}: every counter below {reserved} may have been used"
    )
}

/// Shows settings and counters.
#[inline(never)]
fn check<'a, H: Files<File = File> + AllocGlobal, W: Write>(
    host: &H,
    options: &KeysOptions<'a>,
    path: &PathBuf,
    settings: &Settings,
    output: &mut W,
) -> Result<(), Fault<'a>> {
    let reserved = match open_counters(host, path.as_str(), settings) {
        Ok(counters) => counters.reserved(),
        Err(fault) => return Err(Fault::of_counters_file(host.alloc(), options.file, fault)),
    };
    match report(output, settings, path, reserved) {
        Ok(()) => Ok(()),
        Err(_) => Err(Fault::Output),
    }
}

/// Makes or shows the file of counters that a file of settings names.
#[inline(never)]
pub fn run_keys<'a, H: Files<File = File> + AllocGlobal, W: Write>(
    host: &H,
    options: &KeysOptions<'a>,
    output: &mut W,
) -> Result<(), Fault<'a>> {
    let is_new = options.action == "new";
    if !is_new && options.action != "check" {
        return Err(Fault::Action(options.action));
    }
    let settings = settings_of(host, options.file)?;
    let Ok(path) = counters_path(host.alloc(), options.file, &settings) else {
        return Err(Fault::MEMORY);
    };
    if is_new {
        make(host, options, &path, &settings, output)
    } else {
        check(host, options, &path, &settings, output)
    }
}
