//! Rows of `dlms_acse`.

use crate::answers::{put_shown, put_with_number};
use crate::bench::Bench;
use crate::fault::RowFault;
use crate::hexadecimal::put_hex;
use crate::words::{Words, client_of};
use dlms_acse::{
    Aarq, AcseFault, Conformance, Verdict, read_aare, read_aarq, verdict, write_aare, write_aarq,
    write_rlre, write_rlrq,
};

/// The calls of association.
#[derive(Clone, Copy)]
pub struct AcseBench;

fn put_fault(answer: &mut String, fault: AcseFault) -> Result<(), RowFault> {
    put_with_number(answer, "fault ", u64::from(fault.number()))
}

/// The services, in six digits.
fn put_services(answer: &mut String, services: u32) -> Result<(), RowFault> {
    let [_, high, middle, low] = services.to_be_bytes();
    put_hex(answer, &[high, middle, low])
}

/// What becomes of a request: `accepted`, the services and the size, or `refused`, the diagnostic and the initiate error.
fn put_verdict(answer: &mut String, verdict: &Verdict) -> Result<(), RowFault> {
    match verdict {
        Verdict::Accepted { conformance, size } => {
            answer.push_str("accepted ")?;
            put_services(answer, conformance.0)?;
            put_with_number(answer, " ", u64::from(*size))
        }
        Verdict::Refused {
            diagnostic,
            initiate: Some(error),
        } => {
            put_with_number(answer, "refused ", u64::from(*diagnostic))?;
            put_with_number(answer, " ", u64::from(*error))
        }
        Verdict::Refused { diagnostic, .. } => {
            put_with_number(answer, "refused ", u64::from(*diagnostic))
        }
    }
}

/// The content of a request: context, mechanism, secret, initiate request.
fn put_aarq(answer: &mut String, aarq: &Aarq) -> Result<(), RowFault> {
    put_shown(answer, &aarq.context)?;
    answer.push(' ')?;
    put_shown(answer, &aarq.mechanism)?;
    answer.push(' ')?;
    match &aarq.secret {
        Some(secret) => put_hex(answer, secret.as_slice())?,
        None => answer.push_str("no")?,
    }
    match &aarq.initiate {
        Some(initiate) => {
            put_with_number(answer, " ", u64::from(initiate.version))?;
            answer.push(' ')?;
            put_services(answer, initiate.conformance.0)?;
            put_with_number(answer, " ", u64::from(initiate.size))
        }
        None => Ok(answer.push_str(" no")?),
    }
}

/// The result of reading a request.
fn put_read(bytes: &[u8], answer: &mut String) -> Result<(), RowFault> {
    match read_aarq(bytes) {
        Ok(aarq) => put_aarq(answer, &aarq),
        Err(fault) => put_fault(answer, fault),
    }
}

/// What becomes of a request of a client, whose secret is given, and the response.
fn put_judged(words: &mut Words<'_>, answer: &mut String) -> Result<(), RowFault> {
    let client = client_of(words.word()?)?;
    let secret = words.bytes()?;
    let bytes = words.bytes()?;
    match read_aarq(&bytes) {
        Ok(aarq) => {
            let outcome = verdict(&aarq, client, &secret);
            put_verdict(answer, &outcome)?;
            answer.push(' ')?;
            put_hex(answer, write_aare(&outcome).as_slice())
        }
        Err(fault) => put_fault(answer, fault),
    }
}

/// The request of a client, with its secret, services and size.
fn put_request(words: &mut Words<'_>, answer: &mut String) -> Result<(), RowFault> {
    let client = client_of(words.word()?)?;
    let secret = words.bytes()?;
    let Ok(services) = u32::from_str_radix(words.word()?, 16) else {
        return Err(RowFault::Form);
    };
    let size = words.short()?;
    if secret.len() > 16 {
        return Err(RowFault::Form);
    }
    let bytes = write_aarq(client, &secret, Conformance(services), size);
    put_hex(answer, bytes.as_slice())
}

/// The result of reading a response.
fn put_response(bytes: &[u8], answer: &mut String) -> Result<(), RowFault> {
    match read_aare(bytes) {
        Ok(outcome) => put_verdict(answer, &outcome),
        Err(fault) => put_fault(answer, fault),
    }
}

impl Bench for AcseBench {
    fn step(&mut self, words: &mut Words<'_>, answer: &mut String) -> Result<(), RowFault> {
        match words.word()? {
            "read-aarq" => put_read(&words.bytes()?, answer),
            "verdict" => put_judged(words, answer),
            "write-aarq" => put_request(words, answer),
            "read-aare" => put_response(&words.bytes()?, answer),
            "write-rlrq" => put_hex(answer, write_rlrq().as_slice()),
            "write-rlre" => put_hex(answer, write_rlre().as_slice()),
            _ => Err(RowFault::Form),
        }
    }
}
