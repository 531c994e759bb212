//! A scenario played on a meter.

use crate::client::exchange;
use crate::seen::{Seen, seen_in};
use crate::stops::acts::{Act, Asked, SCENARIO};
use dlms_link::ClientLink;
use dlms_meter::Meter;
use dlms_pages::Pages;
use dlms_store::AddFault;
use std::alloc::AllocError;

/// The outcome of a scenario.
#[derive(Clone, Copy)]
pub struct Played {
    /// What was to be seen when success or data was last answered.
    pub answered: Seen,
    /// The device failed.
    pub failed: bool,
    /// Each call answered as it is to.
    pub is_right: bool,
}

impl Played {
    /// A call that changes the events by itself.
    fn judge(&mut self, outcome: Result<(), AddFault>) {
        match outcome {
            Ok(()) => self.is_right = self.is_right && !self.failed,
            Err(AddFault::Device) => {
                self.is_right = self.is_right && !self.failed;
                self.failed = true;
            }
            Err(AddFault::Stopped) => self.is_right = self.is_right && self.failed,
            Err(_) => self.is_right = false,
        }
    }

    /// An APDU that was answered so.
    fn hear(&mut self, asked: Asked, answer: &[u8], now: Seen) {
        if self.failed {
            self.is_right = self.is_right && (answer == asked.late || answer == asked.fails);
        } else if answer.starts_with(asked.answer) {
            self.answered = now;
        } else {
            self.is_right = self.is_right && answer == asked.fails;
            self.failed = true;
        }
    }
}

/// Plays one act, and writes down what is to be seen after each of its calls.
fn act<P: Pages>(
    act: Act,
    meter: &mut Meter<P>,
    link: &mut ClientLink,
    played: &mut Played,
    trace: &mut Vec<Seen>,
) -> Result<(), AllocError> {
    match act {
        Act::Pulses(count) => {
            for _ in 0..count {
                played.judge(meter.pulses(0, 1));
                trace.push(seen_in(meter))?;
            }
        }
        Act::Moment(second) => {
            played.judge(meter.moment(second));
            trace.push(seen_in(meter))?;
        }
        Act::Periods(first, last) => {
            for period in first..=last {
                played.judge(meter.moment(period.saturating_mul(900)));
                trace.push(seen_in(meter))?;
            }
        }
        Act::Asks(asked) => {
            match exchange(meter, link, asked.apdu) {
                Some(answer) => played.hear(asked, answer.as_slice(), seen_in(meter)),
                None => played.is_right = false,
            }
            trace.push(seen_in(meter))?;
        }
    }
    Ok(())
}

/// Plays the scenario, and writes down what is to be seen after each call.
pub fn play<P: Pages>(
    meter: &mut Meter<P>,
    link: &mut ClientLink,
    trace: &mut Vec<Seen>,
) -> Result<Played, AllocError> {
    let mut played = Played {
        answered: seen_in(meter),
        failed: false,
        is_right: true,
    };
    trace.push(seen_in(meter))?;
    for (times, acts) in SCENARIO {
        for _ in 0..times {
            for one in acts.iter() {
                act(*one, meter, link, &mut played, trace)?;
            }
        }
    }
    Ok(played)
}
