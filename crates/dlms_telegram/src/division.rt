//! The check of a telegram.

ghost use Rattle.std.specs.Prelude.{◌≡◌};
ghost use Rattle.dlms_telegram.specs.Check.{check_of};
ghost use Rattle.dlms_telegram.specs.Register.{after_octet, step};

/// The divisor x^16 + x^15 + x^2 + 1 without its highest power, that of x^15 in the lowest bit.
const DIVISOR: u16 = 0xa001;

/// The register after one step of the division.
#[tactic(auto, unfolding(crate::specs::Register::step))]
fn step(register: u16) -> u16
    ensures { result ≡ step register }
{
    (register / 2) ^ (register % 2 * DIVISOR)
}

/// The register after an octet, whose lowest bit comes first.
fn after_octet(register: u16, octet: u8) -> u16
    ensures { result ≡ after_octet register octet }
{
    let one = step(register ^ u16::from(octet));
    let two = step(one);
    let three = step(two);
    let four = step(three);
    let five = step(four);
    let six = step(five);
    let seven = step(six);
    step(seven)
}

/// The check of these octets, CRC-16 (the Dutch P1 companion standard, 6.2).
pub fn check(octets: &[u8]) -> u16
    ensures { result ≡ check_of octets.now }
{
    let mut register = 0;
    for octet in octets {
        register = after_octet(register, *octet);
    }
    register
}
