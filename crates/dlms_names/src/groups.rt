//! The value groups of OBIS codes (IEC 62056-6-1).

ghost use Rattle.std.specs.Prelude.{◌≡◌};
ghost use Rattle.std.specs.Option.{option_copied};
ghost use Rattle.dlms_names.specs.Groups.{media, other_quantities, phase, phase_quantities, phases, processings, quantity};
ghost use Rattle.dlms_names.specs.Rows.{name_in};

/// The medium that this value group A names.
pub fn medium_name(number: u8) -> Option<&'static str>
    ensures { option_copied result ≡ name_in media number }
{
    match number {
        0 => Some("abstract"),
        1 => Some("electricity"),
        4 => Some("heat cost allocator"),
        5 => Some("cooling"),
        6 => Some("heat"),
        7 => Some("gas"),
        8 => Some("cold water"),
        9 => Some("hot water"),
        15 => Some("other medium"),
        _ => None,
    }
}

/// The name of a quantity, of all phases together or of one.
fn phase_quantity(number: u8) -> Option<&'static str>
    ensures { option_copied result ≡ name_in phase_quantities number }
{
    match number {
        1 => Some("active power+"),
        2 => Some("active power-"),
        3 => Some("reactive power+"),
        4 => Some("reactive power-"),
        5 => Some("reactive power QI"),
        6 => Some("reactive power QII"),
        7 => Some("reactive power QIII"),
        8 => Some("reactive power QIV"),
        9 => Some("apparent power+"),
        10 => Some("apparent power-"),
        11 => Some("current"),
        12 => Some("voltage"),
        13 => Some("power factor"),
        14 => Some("supply frequency"),
        15 => Some("active power |QI+QIV|+|QII+QIII|"),
        16 => Some("active power |QI+QIV|-|QII+QIII|"),
        17 => Some("active power QI"),
        18 => Some("active power QII"),
        19 => Some("active power QIII"),
        20 => Some("active power QIV"),
        _ => None,
    }
}

/// The name of a quantity that no phase has.
fn other_quantity(number: u8) -> Option<&'static str>
    ensures { option_copied result ≡ name_in other_quantities number }
{
    match number {
        81 => Some("angles"),
        82 => Some("unitless quantity"),
        83 => Some("losses"),
        88 => Some("ampere-squared hours"),
        89 => Some("volt-squared hours"),
        90 => Some("current, sum of phases"),
        91 => Some("current in neutral"),
        92 => Some("voltage in neutral"),
        _ => None,
    }
}

/// The quantity of electricity that this value group C names.
pub fn quantity_name(number: u8) -> Option<&'static str>
    ensures { option_copied result ≡ quantity number }
{
    if number == 0 {
        None
    } else if number <= 80 {
        phase_quantity((number - 1) % 20 + 1)
    } else {
        other_quantity(number)
    }
}

/// The name of the phase with this number.
fn phase_of(number: u8) -> Option<&'static str>
    ensures { option_copied result ≡ name_in phases number }
{
    match number {
        1 => Some("L1"),
        2 => Some("L2"),
        3 => Some("L3"),
        _ => None,
    }
}

/// The phase that this value group C names; none of all together.
pub fn phase_name(number: u8) -> Option<&'static str>
    ensures { option_copied result ≡ phase number }
{
    if number == 0 || number > 80 {
        return None;
    }
    phase_of((number - 1) / 20)
}

/// How a quantity of electricity is processed, by this value group D.
pub fn processing_name(number: u8) -> Option<&'static str>
    ensures { option_copied result ≡ name_in processings number }
{
    match number {
        0 => Some("billing period average"),
        1 => Some("cumulative minimum 1"),
        2 => Some("cumulative maximum 1"),
        3 => Some("minimum 1"),
        4 => Some("current average 1"),
        5 => Some("last average 1"),
        6 => Some("maximum 1"),
        7 => Some("instantaneous value"),
        8 => Some("time integral 1"),
        9 => Some("time integral 2"),
        10 => Some("time integral 3"),
        11 => Some("cumulative minimum 2"),
        12 => Some("cumulative maximum 2"),
        13 => Some("minimum 2"),
        14 => Some("current average 2"),
        15 => Some("last average 2"),
        16 => Some("maximum 2"),
        21 => Some("cumulative minimum 3"),
        22 => Some("cumulative maximum 3"),
        23 => Some("minimum 3"),
        24 => Some("current average 3"),
        25 => Some("last average 3"),
        26 => Some("maximum 3"),
        27 => Some("current average 5"),
        28 => Some("current average 6"),
        29 => Some("time integral 5"),
        30 => Some("time integral 6"),
        31 => Some("under limit threshold"),
        32 => Some("under limit occurrence counter"),
        33 => Some("under limit duration"),
        34 => Some("under limit magnitude"),
        35 => Some("over limit threshold"),
        36 => Some("over limit occurrence counter"),
        37 => Some("over limit duration"),
        38 => Some("over limit magnitude"),
        39 => Some("missing threshold"),
        40 => Some("missing occurrence counter"),
        41 => Some("missing duration"),
        42 => Some("missing magnitude"),
        55 => Some("test average"),
        58 => Some("time integral 4"),
        _ => None,
    }
}
