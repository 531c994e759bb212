//! The plotted quantity, and numbers of thousandths.
ghost use Rattle.std.specs.Prelude.{◌≡◌};
ghost use Rattle.dlms_plot.specs.Quantity.{quantity_at};

use std::fmt;

/// The quantity that a register counts.
#[derive(Clone, Copy, PartialEq, Eq)]
pub enum Quantity {
    /// Active energy that the meter's owner took, in watt-hours.
    Import,
    /// Active energy that was given back, in watt-hours.
    Export,
    /// Reactive energy, in var-hours.
    Reactive,
}

impl Quantity {
    /// The quantity of this channel's register: 0 for import, 1 for export, 2 for reactive energy. None for another one.
    pub fn of_channel(channel: usize) -> Option<Quantity>
        ensures { result ≡ quantity_at channel }
    {
        match channel {
            0 => Some(Quantity::Import),
            1 => Some(Quantity::Export),
            2 => Some(Quantity::Reactive),
            _ => None,
        }
    }

    /// Its name.
    pub fn name(self) -> &'static str {
        match self {
            Quantity::Import => "active energy import",
            Quantity::Export => "active energy export",
            Quantity::Reactive => "reactive energy",
        }
    }

    /// The quantity of a register's name: its logical name or the end of it, as `1.0.1.8.0.255`, `1.8.0` or `1.8`; its column in a
    /// readings file, as `r0`, or the number of that; or its name in words. None for another one.
    pub fn named(text: &str) -> Option<Quantity> {
        match text {
            "1.0.1.8.0.255" | "1.8.0" | "1.8" | "r0" | "0" | "active energy import" => {
                Some(Quantity::Import)
            }
            "1.0.2.8.0.255" | "2.8.0" | "2.8" | "r1" | "1" | "active energy export" => {
                Some(Quantity::Export)
            }
            "1.0.3.8.0.255" | "3.8.0" | "3.8" | "r2" | "2" | "reactive energy" => {
                Some(Quantity::Reactive)
            }
            _ => None,
        }
    }

    /// The logical name of its register.
    pub fn code(self) -> &'static str {
        match self {
            Quantity::Import => "1.0.1.8.0.255",
            Quantity::Export => "1.0.2.8.0.255",
            Quantity::Reactive => "1.0.3.8.0.255",
        }
    }

    /// The unit of the quantity per hour.
    pub fn unit(self) -> &'static str {
        match self {
            Quantity::Import | Quantity::Export => "W",
            Quantity::Reactive => "var",
        }
    }

    /// The unit of a thousand of the quantity.
    pub fn energy_unit(self) -> &'static str {
        match self {
            Quantity::Import | Quantity::Export => "kWh",
            Quantity::Reactive => "kvarh",
        }
    }

    /// The unit of a thousand of the quantity per hour.
    pub fn power_unit(self) -> &'static str {
        match self {
            Quantity::Import | Quantity::Export => "kW",
            Quantity::Reactive => "kvar",
        }
    }
}

/// A number of thousandths, as `1.500`.
#[derive(Clone, Copy, PartialEq, Eq)]
pub struct Thousandth(pub u64);

impl fmt::Display for Thousandth {
    fn fmt<W: fmt::Write>(&self, f: &mut fmt::Formatter<W>) -> fmt::Result {
        let whole = self.0 / 1000;
        let rest = self.0 % 1000;
        write!(f, "{whole}.{rest:03}")
    }
}
