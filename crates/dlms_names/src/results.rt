//! The names of the numbers that report the outcome of a request or of an association (IEC 62056-5-3).

ghost use Rattle.std.specs.Prelude.{◌≡◌};
ghost use Rattle.std.specs.Option.{option_copied};
ghost use Rattle.dlms_names.specs.Rows.{name_in};
ghost use Rattle.dlms_names.specs.Results.{access_results, action_results, state_errors, service_errors, diagnostics, initiate_errors, release_requests, release_responses};

/// The name of a Data-Access-Result, the outcome of a GET or a SET; none if the number has no name there.
pub fn access_result(number: u8) -> Option<&'static str>
    ensures { option_copied result ≡ name_in access_results number }
{
    match number {
        0 => Some("success"),
        1 => Some("hardware-fault"),
        2 => Some("temporary-failure"),
        3 => Some("read-write-denied"),
        4 => Some("object-undefined"),
        9 => Some("object-class-inconsistent"),
        11 => Some("object-unavailable"),
        12 => Some("type-unmatched"),
        13 => Some("scope-of-access-violated"),
        14 => Some("data-block-unavailable"),
        15 => Some("long-get-aborted"),
        16 => Some("no-long-get-in-progress"),
        17 => Some("long-set-aborted"),
        18 => Some("no-long-set-in-progress"),
        19 => Some("data-block-number-invalid"),
        250 => Some("other-reason"),
        _ => None,
    }
}

/// The name of an Action-Result, what becomes of an ACTION.
pub fn action_result(number: u8) -> Option<&'static str>
    ensures { option_copied result ≡ name_in action_results number }
{
    match number {
        0 => Some("success"),
        1 => Some("hardware-fault"),
        2 => Some("temporary-failure"),
        3 => Some("read-write-denied"),
        4 => Some("object-undefined"),
        9 => Some("object-class-inconsistent"),
        11 => Some("object-unavailable"),
        12 => Some("type-unmatched"),
        13 => Some("scope-of-access-violated"),
        14 => Some("data-block-unavailable"),
        15 => Some("long-action-aborted"),
        16 => Some("no-long-action-in-progress"),
        19 => Some("data-block-number-invalid"),
        250 => Some("other-reason"),
        _ => None,
    }
}

/// The name of the state-error of an exception response.
pub fn state_error(number: u8) -> Option<&'static str>
    ensures { option_copied result ≡ name_in state_errors number }
{
    match number {
        1 => Some("service-not-allowed"),
        2 => Some("service-unknown"),
        _ => None,
    }
}

/// The name of the service-error of an exception response.
pub fn service_error(number: u8) -> Option<&'static str>
    ensures { option_copied result ≡ name_in service_errors number }
{
    match number {
        1 => Some("operation-not-possible"),
        2 => Some("service-not-supported"),
        3 => Some("other-reason"),
        4 => Some("pdu-too-long"),
        5 => Some("deciphering-error"),
        6 => Some("invocation-counter-error"),
        _ => None,
    }
}

/// The name of a diagnostic of the ACSE service user, which an association response gives.
pub fn diagnostic(number: u8) -> Option<&'static str>
    ensures { option_copied result ≡ name_in diagnostics number }
{
    match number {
        0 => Some("null"),
        1 => Some("no-reason-given"),
        2 => Some("application-context-name-not-supported"),
        3 => Some("calling-AP-title-not-recognized"),
        4 => Some("calling-AP-invocation-identifier-not-recognized"),
        5 => Some("calling-AE-qualifier-not-recognized"),
        6 => Some("calling-AE-invocation-identifier-not-recognized"),
        7 => Some("called-AP-title-not-recognized"),
        8 => Some("called-AP-invocation-identifier-not-recognized"),
        9 => Some("called-AE-qualifier-not-recognized"),
        10 => Some("called-AE-invocation-identifier-not-recognized"),
        11 => Some("authentication-mechanism-name-not-recognised"),
        12 => Some("authentication-mechanism-name-required"),
        13 => Some("authentication-failure"),
        14 => Some("authentication-required"),
        _ => None,
    }
}

/// The name of the initiate error of a confirmed service error.
pub fn initiate_error(number: u8) -> Option<&'static str>
    ensures { option_copied result ≡ name_in initiate_errors number }
{
    match number {
        0 => Some("other"),
        1 => Some("dlms-version-too-low"),
        2 => Some("incompatible-conformance"),
        3 => Some("pdu-size-too-short"),
        4 => Some("refused-by-the-VDE-Handler"),
        _ => None,
    }
}

/// The name of the reason of a release request.
pub fn release_request(number: u8) -> Option<&'static str>
    ensures { option_copied result ≡ name_in release_requests number }
{
    match number {
        0 => Some("normal"),
        1 => Some("urgent"),
        30 => Some("user-defined"),
        _ => None,
    }
}

/// The name of the reason of a release response.
pub fn release_response(number: u8) -> Option<&'static str>
    ensures { option_copied result ≡ name_in release_responses number }
{
    match number {
        0 => Some("normal"),
        1 => Some("not-finished"),
        30 => Some("user-defined"),
        _ => None,
    }
}
