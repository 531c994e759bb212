//! Units (the Blue Book, IEC 62056-6-2, enumerated values for physical units).

ghost use Rattle.std.specs.Prelude.{◌≡◌};
ghost use Rattle.std.specs.Option.{option_copied};
ghost use Rattle.dlms_names.specs.Rows.{name_in};
ghost use Rattle.dlms_names.specs.Units.{electric_units, mechanic_units, other_units, unit};

/// The name of a unit of time, length, volume, mass, force or heat.
fn mechanic_unit(number: u8) -> Option<&'static str>
    ensures { option_copied result ≡ name_in mechanic_units number }
{
    match number {
        1 => Some("a"),
        2 => Some("mo"),
        3 => Some("wk"),
        4 => Some("d"),
        5 => Some("h"),
        6 => Some("min"),
        7 => Some("s"),
        8 => Some("degree"),
        9 => Some("degree Celsius"),
        10 => Some("currency"),
        11 => Some("m"),
        12 => Some("m/s"),
        13 => Some("m3"),
        14 => Some("m3 corrected"),
        15 => Some("m3/h"),
        16 => Some("m3/h corrected"),
        17 => Some("m3/d"),
        18 => Some("m3/d corrected"),
        19 => Some("l"),
        20 => Some("kg"),
        21 => Some("N"),
        22 => Some("Nm"),
        23 => Some("Pa"),
        24 => Some("bar"),
        25 => Some("J"),
        26 => Some("J/h"),
        _ => None,
    }
}

/// The name of a unit of electricity, or of a share of a whole.
fn electric_unit(number: u8) -> Option<&'static str>
    ensures { option_copied result ≡ name_in electric_units number }
{
    match number {
        27 => Some("W"),
        28 => Some("VA"),
        29 => Some("var"),
        30 => Some("Wh"),
        31 => Some("VAh"),
        32 => Some("varh"),
        33 => Some("A"),
        34 => Some("C"),
        35 => Some("V"),
        36 => Some("V/m"),
        37 => Some("F"),
        38 => Some("ohm"),
        39 => Some("ohm m2/m"),
        40 => Some("Wb"),
        41 => Some("T"),
        42 => Some("A/m"),
        43 => Some("H"),
        44 => Some("Hz"),
        45 => Some("1/Wh"),
        46 => Some("1/varh"),
        47 => Some("1/VAh"),
        48 => Some("V2h"),
        49 => Some("A2h"),
        50 => Some("kg/s"),
        51 => Some("S"),
        52 => Some("K"),
        53 => Some("1/V2h"),
        54 => Some("1/A2h"),
        55 => Some("1/m3"),
        56 => Some("%"),
        57 => Some("Ah"),
        _ => None,
    }
}

/// The name of another unit.
fn other_unit(number: u8) -> Option<&'static str>
    ensures { option_copied result ≡ name_in other_units number }
{
    match number {
        60 => Some("Wh/m3"),
        61 => Some("J/m3"),
        62 => Some("mol %"),
        63 => Some("g/m3"),
        64 => Some("Pa s"),
        65 => Some("J/kg"),
        66 => Some("g/cm2"),
        67 => Some("atm"),
        70 => Some("dBm"),
        71 => Some("dBuV"),
        72 => Some("dB"),
        254 => Some("another unit"),
        255 => Some("count"),
        _ => None,
    }
}

/// The name of the unit with this number.
pub fn unit_name(number: u8) -> Option<&'static str>
    ensures { option_copied result ≡ unit number }
{
    mechanic_unit(number)
        .or(electric_unit(number))
        .or(other_unit(number))
}
