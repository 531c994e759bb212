//! Rows of `dlms_cipher` and `dlms_security`.

use crate::answers::{put_number, put_shown};
use crate::bench::Bench;
use crate::fault::RowFault;
use crate::hexadecimal::put_hex;
use crate::words::{Words, put_truth};
use dlms_cipher::Keys;
use dlms_security::{Form, Policy, Security, StoredState, header_of, kind_of, open_message};

/// The encryption key of the Green Book's examples.
pub const KEY: [u8; 16] = [
    0x00, 0x01, 0x02, 0x03, 0x04, 0x05, 0x06, 0x07, 0x08, 0x09, 0x0a, 0x0b, 0x0c, 0x0d, 0x0e, 0x0f,
];

/// The authentication key of the Green Book's examples.
pub const AUTHENTICATION: [u8; 16] = [
    0xd0, 0xd1, 0xd2, 0xd3, 0xd4, 0xd5, 0xd6, 0xd7, 0xd8, 0xd9, 0xda, 0xdb, 0xdc, 0xdd, 0xde, 0xdf,
];

/// The system title of the Green Book's examples.
pub const TITLE: [u8; 8] = [0x4d, 0x4d, 0x4d, 0x00, 0x00, 0xbc, 0x61, 0x4e];

/// A sender's keys, its title, and the counter of its next message.
#[derive(Drop)]
struct Sender {
    keys: Keys,
    title: [u8; 8],
    counter: u32,
}

/// Keys of a sender, and an end of an association.
#[derive(Drop)]
pub struct SecurityBench {
    sender: Option<Sender>,
    end: Option<Security>,
}

/// The form that a word names.
pub fn form_of(word: &str) -> Result<Form, RowFault> {
    match word {
        "service" => Ok(Form::Service),
        "general" => Ok(Form::General),
        _ => Err(RowFault::Form),
    }
}

/// The policy that a word names.
fn policy_of(word: &str) -> Result<Policy, RowFault> {
    match word {
        "authenticated" => Ok(Policy::Authenticated),
        "encrypted" => Ok(Policy::Encrypted),
        "both" => Ok(Policy::AuthenticatedEncrypted),
        _ => Err(RowFault::Form),
    }
}

/// A sender of these words: its encryption key, its authentication key, its title and its counter.
fn sender_of(words: &mut Words<'_>) -> Result<Sender, RowFault> {
    let keys = Keys::new(words.octets()?, words.octets()?);
    Ok(Sender {
        keys,
        title: words.octets()?,
        counter: words.number()?,
    })
}

/// An end with the Green Book's keys: its title, its policy, the counter that its messages begin with, and the peer's title if it is
/// known.
fn end_of(words: &mut Words<'_>) -> Result<Security, RowFault> {
    let title = words.octets()?;
    let policy = policy_of(words.word()?)?;
    let reserved = words.number()?;
    let peer = if words.is_empty() {
        None
    } else {
        Some(words.octets()?)
    };
    let stored = StoredState {
        reserved,
        peer,
        accepted: None,
    };
    Ok(Security::new(title, Keys::new(KEY, AUTHENTICATION), policy, stored))
}

/// An end with a dedicated key: its title, its policy and the key.
fn dedicated_of(words: &mut Words<'_>) -> Result<Security, RowFault> {
    let title = words.octets()?;
    let policy = policy_of(words.word()?)?;
    let keys = Keys::new(words.octets()?, AUTHENTICATION);
    Ok(Security::with_dedicated_key(title, keys, policy))
}

/// A call of the keys that changes the text: its tag, or whether it is open; and the text after it.
fn put_changed(
    sender: &Sender,
    call: &str,
    text: &mut [u8],
    words: &mut Words<'_>,
    answer: &mut String,
) -> Result<(), RowFault> {
    let keys = &sender.keys;
    match call {
        "seal" => put_hex(answer, &keys.seal(&sender.title, sender.counter, text))?,
        "open" => {
            let tag = words.octets()?;
            let opened = keys.open(&sender.title, sender.counter, text, &tag);
            put_truth(answer, opened.is_ok())?;
        }
        "cipher" => keys.cipher(&sender.title, sender.counter, text),
        _ => return Err(RowFault::Missing),
    }
    answer.push(' ')?;
    put_hex(answer, text)
}

/// A call of the keys: a tag, or an answer to a challenge; or whether it is one.
fn put_sent(
    sender: &Sender,
    call: &str,
    text: &mut [u8],
    words: &mut Words<'_>,
    answer: &mut String,
) -> Result<(), RowFault> {
    let keys = &sender.keys;
    match call {
        "sign" => put_hex(answer, &keys.sign(&sender.title, sender.counter, text)),
        "prove" => put_hex(answer, &keys.answer(&sender.title, sender.counter, text)),
        "is-signed" => {
            let tag = words.octets()?;
            put_truth(
                answer,
                keys.is_signed(&sender.title, sender.counter, text, &tag),
            )
        }
        "logged" => put_logged(sender, text, answer),
        "is-proof" => {
            let proof = words.octets()?;
            put_truth(answer, keys.is_answer(&sender.title, text, &proof))
        }
        _ => put_changed(sender, call, text, words, answer),
    }
}

/// The message for an APDU, or why there is none.
fn put_protected(
    end: &mut Security,
    words: &mut Words<'_>,
    answer: &mut String,
) -> Result<(), RowFault> {
    let form = form_of(words.word()?)?;
    match end.protect(form, &words.bytes()?) {
        Ok(message) => put_hex(answer, message.as_slice()),
        Err(fault) => put_shown(answer, &fault),
    }
}

/// The APDU in a message, or why there is none.
fn put_unprotected(
    end: &mut Security,
    message: &[u8],
    answer: &mut String,
) -> Result<(), RowFault> {
    match end.unprotect(message) {
        Ok(apdu) => put_hex(answer, apdu.as_slice()),
        Err(fault) => put_shown(answer, &fault),
    }
}

/// The APDU in a message of a log, or why there is none.
fn put_logged(sender: &Sender, message: &[u8], answer: &mut String) -> Result<(), RowFault> {
    match open_message(&sender.keys, &sender.title, message) {
        Ok(apdu) => put_hex(answer, apdu.as_slice()),
        Err(fault) => put_shown(answer, &fault),
    }
}

/// The answer to a challenge, or why there is none.
fn put_answered(end: &mut Security, challenge: &[u8], answer: &mut String) -> Result<(), RowFault> {
    match end.answer(challenge) {
        Ok(octets) => put_hex(answer, &octets),
        Err(fault) => put_shown(answer, &fault),
    }
}

/// A call of an end.
fn put_end(
    end: &mut Security,
    call: &str,
    words: &mut Words<'_>,
    answer: &mut String,
) -> Result<(), RowFault> {
    match call {
        "reserve" => {
            end.extend_reservation(words.number()?);
            Ok(())
        }
        "learn" => {
            end.learn(words.octets()?);
            Ok(())
        }
        "left" => put_number(answer, u64::from(end.counters_left())),
        "peer" => put_shown(answer, &end.peer()),
        "accepted" => put_shown(answer, &end.last_accepted()),
        "protect" => put_protected(end, words, answer),
        "unprotect" => put_unprotected(end, &words.bytes()?, answer),
        "answer" => put_answered(end, &words.bytes()?, answer),
        "is-answer" => {
            let octets = words.octets()?;
            put_truth(answer, end.is_answer(&words.bytes()?, &octets))
        }
        _ => Err(RowFault::Missing),
    }
}

impl SecurityBench {
    pub fn new() -> Self {
        SecurityBench {
            sender: None,
            end: None,
        }
    }

    /// A call of the keys: its text, and its arguments.
    fn with_keys(
        &self,
        call: &str,
        words: &mut Words<'_>,
        answer: &mut String,
    ) -> Result<(), RowFault> {
        let mut text = words.bytes()?;
        match &self.sender {
            Some(sender) => put_sent(sender, call, &mut text, words, answer),
            None => Err(RowFault::Missing),
        }
    }

    /// A call of an end.
    fn with_end(
        &mut self,
        call: &str,
        words: &mut Words<'_>,
        answer: &mut String,
    ) -> Result<(), RowFault> {
        match &mut self.end {
            Some(end) => put_end(end, call, words, answer),
            None => Err(RowFault::Missing),
        }
    }
}

impl Bench for SecurityBench {
    fn step(&mut self, words: &mut Words<'_>, answer: &mut String) -> Result<(), RowFault> {
        let call = words.word()?;
        match call {
            "keys" => {
                self.sender = Some(sender_of(words)?);
                Ok(())
            }
            "new" => {
                self.end = Some(end_of(words)?);
                Ok(())
            }
            "dedicated" => {
                self.end = Some(dedicated_of(words)?);
                Ok(())
            }
            "kind" => put_shown(answer, &kind_of(&words.bytes()?)),
            "header" => put_shown(answer, &header_of(&words.bytes()?)),
            "seal" | "open" | "cipher" | "sign" | "is-signed" | "prove" | "is-proof" | "logged" => {
                self.with_keys(call, words, answer)
            }
            _ => self.with_end(call, words, answer),
        }
    }
}
