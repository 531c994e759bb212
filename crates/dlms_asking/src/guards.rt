//! The guards of a protected poll, by the file of settings.

use crate::asking::is_unanswered;
use crate::counter::last_counter;
use dlms_ends::RunFault;
use dlms_faults::Fault;
use dlms_guards::{GuardFault, POLL_COUNTERS, Protection, heed, protection_of};
use dlms_keys::StoredCounters;
use dlms_lines::{FieldFault, Timer};
use dlms_polling::{Accepted, Guards, HostPollInputs, MOST_RETRIES, PollInputs};
use dlms_secured::Guard;
use dlms_words::PollOptions;
use std::fs::File;
use std::io;
use std::net::Net;
use std::random::RandomSource;
use std::rt::Files;
use std::time::Clock;

/// The guards of a poll. Each has a random challenge, and frame counters that are reserved for it before it is used.
#[derive(Drop)]
pub struct PollGuards<'a, 'h, H> {
    host: &'h H,
    place: &'a str,
    /// The file of settings; none for a poll in clear.
    file: Option<&'a str>,
    /// The last counter that the meter accepted from the client, if it was read.
    last: Option<u32>,
    /// The counters of the guard that was given last, until what it has accepted is kept.
    counters: Option<Box<StoredCounters>>,
    /// Why the last guard was not given, or what it had accepted not kept.
    fault: Option<Fault<'a>>,
}

impl<'a, H> PollGuards<'a, '_, H> {
    /// The fault of a poll, if it is that of these guards: a poll itself has no words for it.
    pub fn told(&mut self, fault: &FieldFault<'_>) -> Option<Fault<'a>> {
        match fault {
            FieldFault::Other(RunFault::Io) | FieldFault::System(..) => self.fault.take(),
            _ => None,
        }
    }
}

impl<'a, H: Files<File = File> + AllocGlobal + RandomSource> PollGuards<'a, '_, H> {
    /// What protects another association.
    #[inline(never)]
    fn protection(&self) -> Result<Option<Protection>, GuardFault> {
        let Some(file) = self.file else {
            return Ok(None);
        };
        match protection_of(self.host, file, self.last, POLL_COUNTERS) {
            Ok(protection) => Ok(Some(protection)),
            Err(fault) => Err(fault),
        }
    }

    /// Keeps why there is no guard, or why a counter was not kept: the poll itself ends as one whose line failed.
    fn refuse(&mut self, fault: GuardFault) -> RunFault {
        let file = self.file.unwrap_or("");
        let fault = Fault::of_guard(self.host.alloc(), self.place, file, fault);
        self.fault = Some(fault);
        RunFault::Io
    }
}

impl<H: Files<File = File> + AllocGlobal + RandomSource> Guards for PollGuards<'_, '_, H> {
    #[inline(never)]
    fn guard(&mut self) -> Result<Box<Guard>, RunFault> {
        self.fault = None;
        match self.protection() {
            Ok(Some(Protection { guard, counters })) => {
                self.counters = Some(counters);
                Ok(guard)
            }
            Ok(None) => Err(RunFault::Io),
            Err(fault) => Err(self.refuse(fault)),
        }
    }

    #[inline(never)]
    fn keep(&mut self, accepted: Accepted) -> Result<(), RunFault> {
        let Some(mut counters) = self.counters.take() else {
            return Ok(());
        };
        let kept = heed(
            &mut counters,
            accepted.title,
            accepted.oldest,
            accepted.latest,
        );
        drop(counters);
        match kept {
            Ok(()) => Ok(()),
            Err(fault) => Err(self.refuse(fault)),
        }
    }
}

/// How many seconds have passed; all of them if the clock fails.
pub fn passed(seconds: io::Result<u64>) -> u32 {
    match seconds {
        Ok(seconds) => u32::try_from(seconds).unwrap_or(u32::MAX),
        Err(_) => u32::MAX,
    }
}

/// The last counter that the meter accepted from the client, if it is to be read, and the seconds that are left then. A meter that does
/// not answer is asked again, as a poll does.
#[inline(never)]
fn last_for_poll<'a, H: Net + Files<File = File> + Clock + AllocGlobal>(
    host: &H,
    options: &PollOptions<'a>,
) -> Result<(Option<u32>, u32), Fault<'a>> {
    let place = options.meter.place;
    let seconds = options.deadline;
    let Some(name) = options.meter.counter_from else {
        return Ok((None, seconds));
    };
    let mut inputs = HostPollInputs::new(host);
    if let Err(error) = inputs.start() {
        return Err(Fault::of_system(host.alloc(), place, &error));
    }
    'calls: for _call in 0..options.meter.retries.unwrap_or(MOST_RETRIES) {
        let told = last_counter(host, &options.meter, name);
        if !is_unanswered(place, &told) {
            return read_in_time(place, told, seconds, passed(inputs.seconds()));
        }
        drop(told);
        inputs.pause();
        if passed(inputs.seconds()) >= seconds {
            return Err(Fault::Overdue(place, seconds));
        }
    }
    let told = last_counter(host, &options.meter, name);
    read_in_time(place, told, seconds, passed(inputs.seconds()))
}

/// The counter that was read, and how many of these seconds are left after those that have passed.
fn read_in_time<'a>(
    place: &'a str,
    told: Result<u32, Fault<'a>>,
    seconds: u32,
    passed: u32,
) -> Result<(Option<u32>, u32), Fault<'a>> {
    let counter = told?;
    let left = seconds.saturating_sub(passed);
    if left == 0 {
        return Err(Fault::Overdue(place, seconds));
    }
    Ok((Some(counter), left))
}

/// The guards of a poll, and the seconds that are left for it: reading the meter's last counter takes some of them.
pub fn guards_of<'a, 'h, H: Net + Files<File = File> + Clock + AllocGlobal>(
    host: &'h H,
    options: &PollOptions<'a>,
) -> Result<(PollGuards<'a, 'h, H>, u32), Fault<'a>> {
    let (last, left) = last_for_poll(host, options)?;
    let guards = PollGuards {
        host,
        place: options.meter.place,
        file: options.meter.security,
        last,
        counters: None,
        fault: None,
    };
    Ok((guards, left))
}
