//! What protects an association: a guard, and the file of its frame counters.

ghost use Rattle.std.specs.Prelude.{◌≡◌, MatchResult};
ghost use Rattle.dlms_guards.specs.Guards.{guard_by};
ghost use Rattle.dlms_secured.specs.Guard.{extended};
ghost use Rattle.dlms_guards.specs.declared.fault.GuardFault.TheVariants.{Memory};

use crate::counters::skip;
use crate::fault::GuardFault;
use dlms_keys::{Settings, StoredCounters, counters_path, open_counters, read_settings};
use dlms_secured::{Guard, Terms};
use dlms_security::StoredState;
use std::alloc::Global;
use std::fs::{File, Files};
use std::random::RandomSource;

/// How many octets a challenge and a dedicated key have.
const RANDOM: usize = 16;

/// The frame counters that are reserved for an association that polls: one for each block of 512 octets among the 2,097,152 that a
/// poll may receive, and 1,000 for its other messages.
pub const POLL_COUNTERS: u32 = 5_096;

/// What protects an association, and the file of its counters; both are large, and on the heap.
#[derive(Drop)]
pub struct Protection {
    pub guard: Box<Guard>,
    pub counters: Box<StoredCounters>,
}

/// Octets that nobody can guess: a challenge, or a dedicated key.
fn random_octets<H: RandomSource>(host: &H) -> Result<[u8; RANDOM], GuardFault> {
    let mut octets = [0u8; RANDOM];
    match host.fill_bytes(&mut octets) {
        Ok(()) => Ok(octets),
        Err(error) => Err(GuardFault::Random(error)),
    }
}

/// The file of counters that these settings name, open.
#[inline(never)]
fn counters_of<H: Files<File = File> + AllocGlobal>(
    host: &H,
    file: &str,
    settings: &Settings,
) -> Result<Box<StoredCounters>, GuardFault> {
    let path = counters_path(host.alloc(), file, settings)?;
    match open_counters(host, path.as_str(), settings) {
        Ok(stored) => match Box::new(host.alloc(), stored) {
            Ok(stored) => Ok(stored),
            Err(_) => Err(GuardFault::Memory),
        },
        Err(fault) => Err(GuardFault::Counters(fault)),
    }
}

/// The guard of an association by these settings, with the counters from `first` up to `end`.
#[inline(never)]
fn guard_of(
    alloc: Global,
    settings: &Settings,
    challenge: &[u8; RANDOM],
    dedicated: Option<[u8; RANDOM]>,
    first: u32,
    end: u32,
) -> Result<Box<Guard>, GuardFault>
    ensures { MatchResult result
        (λ guard. guard.value ≡ extended (guard_by settings.now challenge.now dedicated first) end)
        (λ fault. fault ≡ Memory) }
{
    let terms = Terms {
        title: settings.title,
        encryption_key: settings.encryption_key,
        authentication_key: settings.authentication_key,
        policy: settings.policy,
        form: settings.messages,
    };
    let stored = StoredState {
        peer: None,
        reserved: first,
        accepted: None,
    };
    let mut guard = Guard::new(&terms, stored, challenge, dedicated);
    guard.extend_reservation(end);
    match Box::new(alloc, guard) {
        Ok(guard) => Ok(guard),
        Err(_) => Err(GuardFault::Memory),
    }
}

/// What protects an association by the settings in a file: `count` counters are reserved for it, and stored before the first is used.
/// They come after the last one that the meter accepted, if that is given, and after all that were reserved before.
#[inline(never)]
pub fn protection_of<H: Files<File = File> + AllocGlobal + RandomSource>(
    host: &H,
    file: &str,
    last: Option<u32>,
    count: u32,
) -> Result<Protection, GuardFault> {
    let settings = match read_settings(host, file) {
        Ok(settings) => settings,
        Err(fault) => return Err(GuardFault::Settings(fault)),
    };
    let challenge = random_octets(host)?;
    let dedicated = if settings.dedicated {
        Some(random_octets(host)?)
    } else {
        None
    };
    let mut counters = counters_of(host, file, &settings)?;
    if let Some(last) = last
        && let Err(fault) = skip(&mut counters, last)
    {
        return Err(GuardFault::Stored(fault));
    }
    let first = counters.reserved();
    let end = match counters.reserve(count) {
        Ok(end) => end,
        Err(fault) => return Err(GuardFault::Stored(fault)),
    };
    let guard = guard_of(host.alloc(), &settings, &challenge, dedicated, first, end)?;
    Ok(Protection { guard, counters })
}
