//! OBIS codes and what they name (IEC 62056-6-1).

ghost use Rattle.std.specs.Prelude.{◌≡◌};
ghost use Rattle.std.specs.Option.{option_copied};
ghost use Rattle.dlms_names.specs.Rows.{name_in};
ghost use Rattle.dlms_names.specs.Codes.{code, code_name, energies, objects, powers, quantity};

/// The value group A of electricity.
const ELECTRICITY: u8 = 1;

/// The value group F of a code without a billing period.
const NO_PERIOD: u8 = 0xff;

/// The name of a quantity of electricity that is summed over time.
fn energy(number: u8) -> Option<&'static str>
    ensures { option_copied result ≡ name_in energies number }
{
    match number {
        1 => Some("active energy import"),
        2 => Some("active energy export"),
        3 => Some("reactive energy import"),
        4 => Some("reactive energy export"),
        5 => Some("reactive energy QI"),
        6 => Some("reactive energy QII"),
        7 => Some("reactive energy QIII"),
        8 => Some("reactive energy QIV"),
        9 => Some("apparent energy import"),
        10 => Some("apparent energy export"),
        _ => None,
    }
}

/// The name of the same quantity now.
fn power(number: u8) -> Option<&'static str>
    ensures { option_copied result ≡ name_in powers number }
{
    match number {
        1 => Some("active power import"),
        2 => Some("active power export"),
        3 => Some("reactive power import"),
        4 => Some("reactive power export"),
        5 => Some("reactive power QI"),
        6 => Some("reactive power QII"),
        7 => Some("reactive power QIII"),
        8 => Some("reactive power QIV"),
        9 => Some("apparent power import"),
        10 => Some("apparent power export"),
        _ => None,
    }
}

/// The name of the quantity with this value group C under this value group D.
fn quantity_name(group_c: u8, group_d: u8) -> Option<&'static str>
    ensures { option_copied result ≡ quantity group_c group_d }
{
    match group_d {
        8 => energy(group_c),
        7 => power(group_c),
        _ => None,
    }
}

/// The name of the object whose code is this number, the six octets of its logical name.
fn object_name(number: u64) -> Option<&'static str>
    ensures { option_copied result ≡ name_in objects number }
{
    match number {
        0x0000_0100_00ff => Some("clock"),
        0x0000_0a00_00ff => Some("global meter reset"),
        0x0000_0d00_00ff => Some("activity calendar"),
        0x0000_0f00_00ff => Some("end of billing period"),
        0x0000_1600_00ff => Some("IEC HDLC setup"),
        0x0000_1900_00ff => Some("TCP-UDP setup"),
        0x0000_2800_00ff => Some("current association"),
        0x0000_2900_00ff => Some("SAP assignment"),
        0x0000_2a00_00ff => Some("COSEM logical device name"),
        0x0000_2b00_00ff => Some("security setup"),
        0x0000_2c00_00ff => Some("image transfer"),
        0x0000_6001_00ff => Some("device ID 1"),
        0x0000_6001_01ff => Some("device ID 2"),
        0x0000_6001_02ff => Some("device ID 3"),
        0x0000_6003_0aff => Some("disconnect control"),
        0x0000_6161_00ff => Some("error"),
        0x0000_6162_00ff => Some("alarm"),
        0x0000_6362_00ff => Some("event log"),
        0x0100_0002_00ff => Some("active firmware identifier"),
        0x0100_6201_00ff => Some("data of billing period 1"),
        0x0100_6301_00ff => Some("load profile with recording period 1"),
        0x0100_6302_00ff => Some("load profile with recording period 2"),
        _ => None,
    }
}

/// The six octets of a code as a number, the first one highest.
fn number_of(a: u8, b: u8, c: u8, d: u8, e: u8, f: u8) -> u64
    ensures { result ≡ code a b c d e f }
{
    let front = (u64::from(a) * 256 + u64::from(b)) * 256 + u64::from(c);
    ((front * 256 + u64::from(d)) * 256 + u64::from(e)) * 256 + u64::from(f)
}

/// The name of a code, if it is known here.
pub fn code_name(code: [u8; 6]) -> Option<&'static str>
    ensures { option_copied result ≡ code_name code }
{
    let [a, b, c, d, e, f] = code;
    let object = object_name(number_of(a, b, c, d, e, f));
    if a == ELECTRICITY && e == 0 && f == NO_PERIOD {
        quantity_name(c, d).or(object)
    } else {
        object
    }
}
