//! A client's secret, from a file.

ghost use Rattle.std.specs.Prelude.{◌≡◌, ◌<◌, ℕ, List, [], Some, length, option_map, IfErr, IfOk, MatchOption};
ghost use Rattle.dlms_polling.specs.FirstBytes.{AreFirst, IsByte, ReadsByte};
ghost use Rattle.dlms_polling.specs.Secret.{Finds, FindsGiven, FindsNone, FindsNoneIn, FindsNoneSent, FindsNoSecret, FindsSecret, FindsSent, IsWithout, IsWithoutLineEnd, first_of};

use crate::poll_inputs::PollInputs;
use arrayvec::ArrayVec;
use dlms_client::Route;
use dlms_frame::Client;
use dlms_lines::FieldFault;
use dlms_state::{MOST_SECRET, SecretOf};
use std::fs::Files;
use std::io::Read;
use std::{fs, io};

/// The bytes that are read of a file: those of the longest secret, the two of the end of a line, and one that is too many.
pub const MOST_READ: usize = 19;

/// The bytes without this one at their end, if they have it there.
fn without_last(bytes: &[u8], byte: u8) -> &[u8]
    ensures { IsWithout byte bytes.now result.now }
{
    match bytes.split_last() {
        Some((last, rest)) if *last == byte => rest,
        _ => bytes,
    }
}

/// The bytes without the end of a line, if they have one.
fn without_line_end(bytes: &[u8]) -> &[u8]
    ensures { IsWithoutLineEnd bytes.now result.now }
{
    match bytes.split_last() {
        Some((b'\n', line)) => without_last(line, b'\r'),
        _ => bytes,
    }
}

/// The secret in a file of these bytes: all of them, without the end of a line. `None` if it has more than 16 bytes.
pub fn secret_in(bytes: &[u8]) -> Option<ArrayVec<u8, 16>>
    ensures { (rest : List ℕ) → IsWithoutLineEnd bytes.now rest
        → MatchOption result (MOST_SECRET < length rest) (λ secret. secret.items ≡ rest) }
{
    let rest = without_line_end(bytes);
    if rest.len() > MOST_SECRET {
        return None;
    }
    let mut secret = ArrayVec::new();
    let _fits = secret.try_extend_from_slice(rest);
    Some(secret)
}

/// The byte of a read of one byte.
fn byte_of(read: io::Result<usize>, byte: u8) -> io::Result<Option<u8>>
    ensures { IsByte read byte result }
{
    match read {
        Ok(0) => Ok(None),
        Ok(_one) => Ok(Some(byte)),
        Err(error) => Err(error),
    }
}

/// The next byte of a reader, or none at its end.
fn next_byte<R: Read>(file: &mut R) -> io::Result<Option<u8>>
    ensures { ReadsByte (R.remaining file.old) (R.remaining file.new) result }
{
    let mut byte = [0u8];
    let read = file.read(&mut byte);
    byte_of(read, byte[0])
}

/// The first bytes of a reader, or all if it has fewer.
fn first_of<R: Read>(file: &mut R) -> io::Result<ArrayVec<u8, MOST_READ>>
    ensures { IfOk result (λ bytes. AreFirst (R.remaining file.old) bytes.items) }
{
    let mut bytes = ArrayVec::new();
    'bytes: for _ in 0..MOST_READ {
        match next_byte(file) {
            Ok(Some(byte)) => {
                let _room = bytes.try_push(byte);
            }
            Ok(None) => return Ok(bytes),
            Err(error) => return Err(error),
        }
    }
    Ok(bytes)
}

/// The first bytes of a file, enough to tell its secret, or that it is too long.
pub fn first_bytes<R: Files>(rt: &R, path: &str) -> io::Result<ArrayVec<u8, MOST_READ>> {
    first_of(&mut fs::open(rt, path)?)
}

/// The secret that a new meter has for a client; empty for a client without one.
fn first_secret(client: Client) -> &'static [u8]
    ensures { result.now ≡ first_of client }
{
    match client {
        Client::Public => &[],
        Client::Management => SecretOf::Management.first(),
        Client::Reader => SecretOf::Reader.first(),
    }
}

/// The secret in a file.
fn secret_in_file<'a, D: PollInputs>(
    inputs: &mut D,
    file: &'a str,
) -> Result<ArrayVec<u8, 16>, FieldFault<'a>>
    ensures found { IfOk result (λ secret. Finds [] (Some file.now) (D.seen inputs.old)
        (D.seen inputs.new) secret.items) }
    ensures fails { IfErr result (FindsNoneIn file.now (D.seen inputs.old) (D.seen inputs.new)) }
{
    match inputs.secret(file) {
        Ok(bytes) => match secret_in(bytes.as_slice()) {
            Some(secret) => Ok(secret),
            None => Err(FieldFault::Secret),
        },
        Err(error) => Err(FieldFault::System(file, error)),
    }
}

/// The secret in the file if one is given, otherwise the first one of a client that has one.
fn secret_or_first<'a, D: PollInputs>(
    inputs: &mut D,
    client: Client,
    file: Option<&'a str>,
) -> Result<ArrayVec<u8, 16>, FieldFault<'a>>
    ensures found { IfOk result (λ secret. Finds (first_of client)
        (option_map (λ x. x.now) file.entry) (D.seen inputs.old) (D.seen inputs.new) secret.items) }
    ensures fails { IfErr result (FindsNone (option_map (λ x. x.now) file.entry) (D.seen inputs.old)
        (D.seen inputs.new)) }
{
    match file {
        Some(file) => secret_in_file(inputs, file),
        None => {
            let mut first = ArrayVec::new();
            let _fits = first.try_extend_from_slice(first_secret(client));
            Ok(first)
        }
    }
}

/// The secret that a client sends: the one in the file if one is given, otherwise its first one. For a client without a secret no
/// file is read.
pub fn secret_of<'a, D: PollInputs>(
    inputs: &mut D,
    client: Client,
    file: Option<&'a str>,
) -> Result<ArrayVec<u8, 16>, FieldFault<'a>>
    ensures found { IfOk result (λ secret. FindsSecret client (option_map (λ x. x.now) file.entry)
        (D.seen inputs.old) (D.seen inputs.new) secret.items) }
    ensures fails { IfErr result (FindsNoSecret client (option_map (λ x. x.now) file.entry)
        (D.seen inputs.old) (D.seen inputs.new)) }
{
    match client {
        Client::Public => Ok(ArrayVec::new()),
        Client::Management => secret_or_first(inputs, client, file),
        Client::Reader => secret_or_first(inputs, client, file),
    }
}

/// The secret in the file if one is given, otherwise none.
fn secret_given<'a, D: PollInputs>(
    inputs: &mut D,
    file: Option<&'a str>,
) -> Result<Option<ArrayVec<u8, 16>>, FieldFault<'a>>
    ensures found { IfOk result (λ secret. FindsGiven (option_map (λ x. x.now) file.entry)
        (D.seen inputs.old) (D.seen inputs.new) (option_map (λ s. s.items) secret)) }
    ensures fails { IfErr result (FindsNone (option_map (λ x. x.now) file.entry) (D.seen inputs.old)
        (D.seen inputs.new)) }
{
    let Some(file) = file else {
        return Ok(None);
    };
    match secret_in_file(inputs, file) {
        Ok(secret) => Ok(Some(secret)),
        Err(fault) => Err(fault),
    }
}

/// The secret that a poll sends: over a route the one in the file if one is given, and otherwise none; without a route the client's.
pub fn secret_to_send<'a, D: PollInputs>(
    inputs: &mut D,
    route: Option<Route>,
    client: Client,
    file: Option<&'a str>,
) -> Result<Option<ArrayVec<u8, 16>>, FieldFault<'a>>
    ensures found { IfOk result (λ secret. FindsSent route client
        (option_map (λ x. x.now) file.entry) (D.seen inputs.old) (D.seen inputs.new)
        (option_map (λ s. s.items) secret)) }
    ensures fails { IfErr result (FindsNoneSent route client
        (option_map (λ x. x.now) file.entry) (D.seen inputs.old) (D.seen inputs.new)) }
{
    let None = route else {
        return secret_given(inputs, file);
    };
    match secret_of(inputs, client, file) {
        Ok(secret) => Ok(Some(secret)),
        Err(fault) => Err(fault),
    }
}
