//! Who tries secrets: whose association requests were refused, and from when on each may try again.

ghost use Rattle.std.specs.Prelude.{◌≡◌, []};
ghost use Rattle.dlms_serving.specs.Guesses.{IsOriginOf, Keeps, Proves, Refuses, is_known, is_open, marks_without, may_try, most_wait, next_wait, proofs_without, same_origin, wait_behind, waits};

use crate::turns::have_passed;
use std::alloc::{AllocError, Global};
use std::net::IpAddr;

/// After a refusal an address waits for this many seconds,
pub const FIRST_WAIT: u32 = 10;

/// after each further one twice as long as before, but for no more than this many.
pub const LONGEST_WAIT: u32 = 900;

/// After this many seconds without a refusal the next one counts as the first. A client that waits for that tries less often than
/// once in `LONGEST_WAIT`.
pub const FORGOTTEN_AFTER: u32 = 14_400;

/// An address that has proved a secret waits for this many seconds at most,
pub const KNOWN_WAIT: u32 = 2;

/// for this many seconds after the proof.
pub const KNOWN_FOR: u32 = 90_000;

/// One of several connections from an address that has itself waited for this many seconds waits no longer than after a first
/// refusal.
pub const PATIENCE: u32 = 120;

/// How many addresses with refusals are kept. There are more than `LONGEST_WAIT`: all together are refused once a second at most, so
/// the one that is let go for another was refused longest ago, and has waited by then.
pub const MOST_MARKS: usize = 1_024;

/// How many addresses that have proved a secret are kept; the one that proved it longest ago is let go for another.
pub const MOST_PROOFS: usize = 32;

/// Where connections come from, as far as it counts.
#[derive(Clone, Copy, PartialEq, Eq)]
pub enum Origin {
    /// An address of IPv4, also one that is mapped to IPv6.
    Four(u32),
    /// The first half of an address of IPv6, since one user has all the addresses with the same first half.
    Six(u16, u16, u16, u16),
    /// A serial line.
    Line,
}

impl Origin {
    /// Where an address belongs.
    pub fn of(address: IpAddr) -> Origin
        ensures { IsOriginOf address result }
    {
        match address {
            IpAddr::V4(four) => Origin::Four(four.to_bits()),
            IpAddr::V6(six) => match six.to_ipv4_mapped() {
                Some(four) => Origin::Four(four.to_bits()),
                None => {
                    let [a, b, c, d, _, _, _, _] = six.segments();
                    Origin::Six(a, b, c, d)
                }
            },
        }
    }

    /// Whether both are the same.
    pub fn is(self, other: Origin) -> bool
        ensures { result ≡ same_origin self other }
    {
        match self {
            Origin::Four(bits) => match other {
                Origin::Four(others) => bits == others,
                _ => false,
            },
            Origin::Six(a, b, c, d) => match other {
                Origin::Six(e, f, g, h) => a == e && b == f && c == g && d == h,
                _ => false,
            },
            Origin::Line => match other {
                Origin::Line => true,
                _ => false,
            },
        }
    }
}

/// The last refusal of an address, and the seconds that it waits after that.
#[derive(Clone, Copy)]
pub struct Mark {
    pub origin: Origin,
    pub last: u64,
    pub wait: u32,
}

/// When an address proved a secret last.
#[derive(Clone, Copy)]
pub struct Proof {
    pub origin: Origin,
    pub last: u64,
}

/// The seconds that an address waits after a refusal at this second, if this is its mark.
fn next_wait(mark: Mark, now: u64) -> u32
    ensures { result ≡ next_wait mark now }
{
    if have_passed(FORGOTTEN_AFTER, mark.last, now) {
        FIRST_WAIT
    } else {
        mark.wait.saturating_mul(2).min(LONGEST_WAIT)
    }
}

/// For how many seconds the address of this mark waits in any case: one that has proved a secret, and one of several connections that
/// has been patient, wait no longer than so.
pub fn most_wait(is_known: bool, is_patient: bool) -> u32
    ensures { result ≡ most_wait is_known is_patient }
{
    if is_known {
        KNOWN_WAIT
    } else if is_patient {
        FIRST_WAIT
    } else {
        LONGEST_WAIT
    }
}

/// Keeps one more after the others; the first of them is dropped if there are already this many. Without memory it is not kept.
fn keep<T: Drop>(kept: &mut Vec<T>, item: T, most: usize) -> Result<(), AllocError>
    ensures { Keeps most kept.old.items item result kept.new.items }
{
    if kept.len() >= most && !kept.is_empty() {
        let _first = kept.remove(0);
    }
    kept.push(item)?;
    Ok(())
}

/// The marks of the other addresses.
fn forget_marks(marks: &mut Vec<Mark>, origin: Origin)
    ensures { marks.new.items ≡ marks_without origin marks.old.items }
{
    marks.retain(|mark| !mark.origin.is(origin));
}

/// The proofs of the other addresses.
fn forget_proofs(proofs: &mut Vec<Proof>, origin: Origin)
    ensures { proofs.new.items ≡ proofs_without origin proofs.old.items }
{
    proofs.retain(|proof| !proof.origin.is(origin));
}

/// Who was refused, and who has proved a secret.
#[derive(Drop)]
pub struct Guesses {
    /// The last refusal of each address, the latest last.
    pub marks: Vec<Mark>,
    /// The last proof of each address, the latest last.
    pub proofs: Vec<Proof>,
    /// When an address was refused last that had proved no secret.
    pub last: Option<u64>,
}

impl Guesses {
    /// Nobody was refused, and nobody has proved a secret.
    pub fn none(alloc: Global) -> Self
        ensures { result.marks.items ≡ [] }
    {
        Guesses {
            marks: Vec::new(alloc),
            proofs: Vec::new(alloc),
            last: None,
        }
    }

    /// Whether an address has proved a secret, not too long before this second.
    pub fn is_known(&self, origin: Origin, now: u64) -> bool
        ensures { result ≡ is_known self.now.proofs.items origin now }
    {
        self.proofs.iter().any(|proof| proof.origin.is(origin)
            && !have_passed(KNOWN_FOR, proof.last, now))
    }

    /// Whether an address still waits at this second, if it waits for this many seconds at most.
    pub fn waits(&self, origin: Origin, most: u32, now: u64) -> bool
        ensures { result ≡ waits self.now.marks.items origin most now }
    {
        self.marks.iter().any(|mark| mark.origin.is(origin)
            && !have_passed(mark.wait.min(most), mark.last, now))
    }

    /// Whether any address that has proved no secret may try one at this second: none was refused in it.
    pub fn is_open(&self, now: u64) -> bool
        ensures { result ≡ is_open self.now.last now }
    {
        match self.last {
            Some(last) => have_passed(1, last, now),
            None => true,
        }
    }

    /// Whether an address is served at this second. `is_patient` says that it is one of several connections from there, and has waited
    /// for `PATIENCE` seconds.
    pub fn may_try(&self, origin: Origin, is_patient: bool, now: u64) -> bool
        ensures { result ≡ may_try self.now origin is_patient now }
    {
        let is_known = self.is_known(origin, now);
        (is_known || self.is_open(now)) && !self.waits(origin, most_wait(is_known, is_patient), now)
    }

    /// The seconds that an address waits after a refusal at this second.
    pub fn wait_behind(&self, origin: Origin, now: u64) -> u32
        ensures { result ≡ wait_behind self.now.marks.items origin now }
    {
        match self.marks.iter().find(|mark| mark.origin.is(origin)) {
            Some(mark) => next_wait(*mark, now),
            None => FIRST_WAIT,
        }
    }

    /// An association request from an address was refused at this second. Where memory is wanted that is not kept of the address, but of
    /// all together.
    pub fn refuse(&mut self, origin: Origin, now: u64) -> Result<(), AllocError>
        ensures { Refuses self.old origin now result self.new }
    {
        if !self.is_known(origin, now) {
            self.last = Some(now);
        }
        let wait = self.wait_behind(origin, now);
        forget_marks(&mut self.marks, origin);
        let mark = Mark {
            origin,
            last: now,
            wait,
        };
        keep(&mut self.marks, mark, MOST_MARKS)
    }

    /// An address has proved a secret at this second. Where memory is wanted that is not kept.
    pub fn prove(&mut self, origin: Origin, now: u64) -> Result<(), AllocError>
        ensures { Proves self.old origin now result self.new }
    {
        forget_proofs(&mut self.proofs, origin);
        keep(&mut self.proofs, Proof { origin, last: now }, MOST_PROOFS)
    }
}
