//! The services of a conformance block, and the APDUs, by their names (IEC 62056-5-3).

ghost use Rattle.std.specs.Prelude.{◌≡◌};
ghost use Rattle.std.specs.Option.{option_copied};
ghost use Rattle.dlms_names.specs.Rows.{name_in};
ghost use Rattle.dlms_names.specs.Services.{apdus, services};

/// The name of the service of a bit of the conformance block. Bit 0 is the first one of its 24 bits.
pub fn service_name(number: u8) -> Option<&'static str>
    ensures { option_copied result ≡ name_in services number }
{
    match number {
        1 => Some("general-protection"),
        2 => Some("general-block-transfer"),
        3 => Some("read"),
        4 => Some("write"),
        5 => Some("unconfirmed-write"),
        6 => Some("delta-value-encoding"),
        8 => Some("attribute0-supported-with-set"),
        9 => Some("priority-mgmt-supported"),
        10 => Some("attribute0-supported-with-get"),
        11 => Some("block-transfer-with-get-or-read"),
        12 => Some("block-transfer-with-set-or-write"),
        13 => Some("block-transfer-with-action"),
        14 => Some("multiple-references"),
        15 => Some("information-report"),
        16 => Some("data-notification"),
        17 => Some("access"),
        18 => Some("parameterized-access"),
        19 => Some("get"),
        20 => Some("set"),
        21 => Some("selective-access"),
        22 => Some("event-notification"),
        23 => Some("action"),
        _ => None,
    }
}

/// The name of the APDUs that begin with this octet.
pub fn apdu_name(number: u8) -> Option<&'static str>
    ensures { option_copied result ≡ name_in apdus number }
{
    match number {
        0x01 => Some("initiate-request"),
        0x08 => Some("initiate-response"),
        0x0e => Some("confirmed-service-error"),
        0x0f => Some("data-notification"),
        0x60 => Some("association request"),
        0x61 => Some("association response"),
        0x62 => Some("release request"),
        0x63 => Some("release response"),
        0xc0 => Some("get-request"),
        0xc1 => Some("set-request"),
        0xc2 => Some("event-notification-request"),
        0xc3 => Some("action-request"),
        0xc4 => Some("get-response"),
        0xc5 => Some("set-response"),
        0xc7 => Some("action-response"),
        0xc8 => Some("glo-get-request"),
        0xc9 => Some("glo-set-request"),
        0xca => Some("glo-event-notification-request"),
        0xcb => Some("glo-action-request"),
        0xcc => Some("glo-get-response"),
        0xcd => Some("glo-set-response"),
        0xcf => Some("glo-action-response"),
        0xd0 => Some("ded-get-request"),
        0xd1 => Some("ded-set-request"),
        0xd2 => Some("ded-event-notification-request"),
        0xd3 => Some("ded-action-request"),
        0xd4 => Some("ded-get-response"),
        0xd5 => Some("ded-set-response"),
        0xd7 => Some("ded-action-response"),
        0xd8 => Some("exception-response"),
        0xd9 => Some("access-request"),
        0xda => Some("access-response"),
        0xdb => Some("general-glo-ciphering"),
        0xdc => Some("general-ded-ciphering"),
        0xdd => Some("general-ciphering"),
        0xdf => Some("general-signing"),
        0xe0 => Some("general-block-transfer"),
        _ => None,
    }
}
