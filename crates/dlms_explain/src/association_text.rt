//! The lines of an association's APDUs. No octet of a secret comes here.

use crate::foreign_text::write_ciphered;
use crate::names_text::write_conformance;
use crate::words::{Text, line, named_line, number_line, octets_line};
use dlms_acse::{Conformance, Initiate, Mechanism, Verdict};
use dlms_dissect::{Acse, Association, CipheredInitiate};
use dlms_names::{diagnostic, initiate_error, release_request, release_response};
use std::alloc::Allocator;

/// The words for a mechanism.
fn mechanism_words(number: u8) -> &'static str {
    match number {
        0 => "mechanism: lowest level security (0)",
        1 => "mechanism: low level security (1)",
        2 => "mechanism: high level security (2)",
        3 => "mechanism: high level security with MD5 (3)",
        4 => "mechanism: high level security with SHA-1 (4)",
        5 => "mechanism: high level security with GMAC (5)",
        6 => "mechanism: high level security with SHA-256 (6)",
        7 => "mechanism: high level security with ECDSA (7)",
        _ => "mechanism: another one",
    }
}

/// The words for the mechanism that a request names.
fn requested_words(mechanism: Mechanism, number: Option<u8>) -> &'static str {
    match (mechanism, number) {
        (Mechanism::Absent, _) => "mechanism: none is named",
        (_, Some(number)) => mechanism_words(number),
        (_, None) => "mechanism: another one",
    }
}

/// The words for a request's authentication value.
fn secret_words(has_secret: bool) -> &'static str {
    if has_secret {
        "authentication value: (secret)"
    } else {
        "authentication value: none that is readable"
    }
}

/// The words for an application context.
fn context_words(number: Option<u8>) -> &'static str {
    match number {
        Some(1) => "application context: logical names, no ciphering",
        Some(2) => "application context: short names, no ciphering",
        Some(3) => "application context: logical names, with ciphering",
        Some(4) => "application context: short names, with ciphering",
        _ => "application context: another one, or none",
    }
}

/// The line of a title, if there is one.
fn write_title<A: Allocator>(text: &mut Text<A>, label: &str, title: Option<&[u8]>) {
    let Some(title) = title else {
        return;
    };
    octets_line(text, 2, label, title);
}

/// The lines of titles and of requirements.
fn write_acse<A: Allocator>(text: &mut Text<A>, acse: Acse<'_>) {
    write_title(text, "called AP title: ", acse.called_title);
    write_title(text, "calling AP title: ", acse.calling_title);
    write_title(text, "responding AP title: ", acse.responding_title);
    match acse.requirement {
        Some(true) => line(text, 2, "ACSE requirements: authentication"),
        Some(false) => line(text, 2, "ACSE requirements: none"),
        None => {}
    }
}

/// The line of a response's mechanism, if it names one.
fn write_mechanism<A: Allocator>(text: &mut Text<A>, mechanism: Option<u8>) {
    if let Some(number) = mechanism {
        line(text, 2, mechanism_words(number));
    }
}

/// The lines of the names in a response.
fn write_response_names<A: Allocator>(text: &mut Text<A>, acse: Acse<'_>) {
    line(text, 2, context_words(acse.context));
    write_mechanism(text, acse.mechanism);
    if acse.has_value {
        line(text, 2, "authentication value: (secret)");
    }
    write_acse(text, acse);
}

/// The line of a response, by its result.
fn write_outcome<A: Allocator>(text: &mut Text<A>, outcome: u8) {
    if outcome == 0 {
        line(text, 1, "association response: accepted");
    } else {
        line(text, 1, "association response: rejected");
    }
}

/// The lines of a response whose initiate response is ciphered.
pub fn write_ciphered_response<A: Allocator>(
    text: &mut Text<A>,
    acse: Acse<'_>,
    outcome: u8,
    initiate: CipheredInitiate,
) {
    write_outcome(text, outcome);
    write_response_names(text, acse);
    write_ciphered(text, initiate.control, initiate.counter, initiate.len);
}

/// The greatest APDU that is received; 0 says that there is no limit.
fn write_size<A: Allocator>(text: &mut Text<A>, size: u16) {
    if size == 0 {
        line(text, 2, "maximum APDU received: 0, no limit");
    } else {
        number_line(text, 2, "maximum APDU received: ", u64::from(size), "");
    }
}

/// The lines of an initiate request.
fn write_initiate<A: Allocator>(text: &mut Text<A>, initiate: Option<Initiate>) {
    match initiate {
        None => line(text, 2, "initiate request: none that is readable"),
        Some(initiate) => {
            number_line(text, 2, "DLMS version ", u64::from(initiate.version), "");
            write_conformance(text, 2, initiate.conformance);
            write_size(text, initiate.size);
        }
    }
}

/// The lines of an initiate request that was ciphered.
pub fn write_initiate_request<A: Allocator>(text: &mut Text<A>, initiate: Option<Initiate>) {
    line(text, 1, "initiate request");
    write_initiate(text, initiate);
}

/// The lines of the services and sizes that a response grants.
fn write_granted<A: Allocator>(text: &mut Text<A>, conformance: Conformance, size: u16) {
    line(text, 2, "DLMS version 6");
    write_conformance(text, 2, conformance);
    write_size(text, size);
}

/// The lines of an initiate response that was ciphered.
pub fn write_initiate_response<A: Allocator>(text: &mut Text<A>, response: Option<Verdict>) {
    line(text, 1, "initiate response");
    match response {
        Some(Verdict::Accepted { conformance, size }) => write_granted(text, conformance, size),
        _ => line(text, 2, "none that is readable"),
    }
}

/// The lines of an association request.
pub fn write_request<A: Allocator>(text: &mut Text<A>, request: Association, acse: Acse<'_>) {
    line(text, 1, "association request");
    line(text, 2, context_words(acse.context));
    line(text, 2, requested_words(request.mechanism, acse.mechanism));
    line(text, 2, secret_words(request.has_secret));
    write_acse(text, acse);
    match acse.ciphered {
        Some(initiate) => { write_ciphered(text, initiate.control, initiate.counter, initiate.len) }
        None => write_initiate(text, request.initiate),
    }
}

/// A number by its name, in a line.
fn write_named<A: Allocator>(text: &mut Text<A>, label: &str, name: Option<&str>, value: u8) {
    named_line(text, 2, label, name, "number", u64::from(value));
}

/// The lines of an association response.
pub fn write_response<A: Allocator>(text: &mut Text<A>, response: Verdict, acse: Acse<'_>) {
    match response {
        Verdict::Accepted { conformance, size } => {
            write_outcome(text, 0);
            write_response_names(text, acse);
            write_granted(text, conformance, size);
        }
        Verdict::Refused {
            diagnostic: cause,
            initiate,
        } => {
            write_outcome(text, 1);
            write_response_names(text, acse);
            write_named(text, "diagnostic: ", diagnostic(cause), cause);
            match initiate {
                Some(error) => {
                    write_named(text, "initiate error: ", initiate_error(error), error);
                }
                None => {}
            }
        }
    }
}

/// The line of a release, with the name of its reason, if it gives one.
fn write_release<A: Allocator>(text: &mut Text<A>, label: &str, name: Option<&str>, reason: u8) {
    named_line(text, 1, label, name, "reason", u64::from(reason));
}

/// The line of a release request.
pub fn write_release_request<A: Allocator>(text: &mut Text<A>, reason: Option<u8>) {
    match reason {
        Some(code) => write_release(text, "release request: ", release_request(code), code),
        None => line(text, 1, "release request"),
    }
}

/// The line of a release response.
pub fn write_release_response<A: Allocator>(text: &mut Text<A>, reason: Option<u8>) {
    match reason {
        Some(code) => write_release(text, "release response: ", release_response(code), code),
        None => line(text, 1, "release response"),
    }
}
