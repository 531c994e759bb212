//! What a seat does with a meter: the job, the readings file that it is for, and the counters of its association.

ghost use Rattle.std.specs.Prelude.{◌≡◌, ◌≤◌, IfOk, IfSome};
ghost use Rattle.dlms_client.specs.Plan.{IsPlan, plan_of};
ghost use Rattle.dlms_collecting.specs.Clocks.{IsNewClockJob};
ghost use Rattle.dlms_collecting.specs.Own.{IsNewPoll};
ghost use Rattle.dlms_data.specs.declared.date_time.TheConstants.{LAST_SECOND};
ghost use Rattle.dlms_inquiries.specs.Clocks.{IsSystem};

use crate::fault::MeterFault;
use crate::list::Meter;
use crate::meter_file::{MeterFile, path_of};
use crate::own::own_job;
use arrayvec::ArrayVec;
use dlms_client::Plan;
use dlms_data::{Descriptor, LAST_SECOND};
use dlms_ends::RunFault;
use dlms_fleet::Numbered;
use dlms_frame::Client;
use dlms_guards::{POLL_COUNTERS, Protection, heed, protection_of};
use dlms_headend::{Columns, PollTerms};
use dlms_identity::Expected;
use dlms_inquiries::{
    AskJob, Attributes, ClockScript, Comparison, MeterJob, Question, Questions, second_of,
};
use dlms_jobs::PollJob;
use dlms_keys::StoredCounters;
use dlms_polling::{HostPollInputs, secret_of};
use dlms_secured::Guard;
use dlms_text::Name;
use std::alloc::{AllocError, Global};
use std::fs::{File, Files};
use std::random::RandomSource;
use std::time::Clock;

/// The most bytes of an APDU in which requests are made.
const SIZE: u16 = 1_024;

/// The class Data, and its attribute value (IEC 62056-6-2, Data, class 1).
const DATA: u16 = 1;

const VALUE: u8 = 2;

/// What a seat does with a meter: the number of the meter in the list, its readings file if it is polled, how its clock was found if it
/// is corrected, and the counters of the association if it is protected.
#[derive(Drop)]
pub struct Order<'r, R> {
    pub number: usize,
    pub file: Option<MeterFile<'r, R>>,
    /// How its clock was found, if this order corrects it.
    pub found: Option<Comparison>,
    counters: Option<Box<StoredCounters>>,
}

/// The secret that a meter's client sends, by the rules of `poll`: the public client has none, nor has a protected association; a client
/// without a file sends its first one, but none over a route that an option asks for.
fn secret_for<R: Files + Clock>(
    rt: &R,
    meter: &Meter<'_>,
) -> Result<Option<ArrayVec<u8, 16>>, MeterFault> {
    if meter.client == Client::Public || !meter.is_plain && meter.secret_file.is_none() {
        return Ok(None);
    }
    if meter.security.is_some() {
        return Ok(None);
    }
    let mut inputs = HostPollInputs::new(rt);
    match secret_of(&mut inputs, meter.client, meter.secret_file) {
        Ok(secret) => Ok(Some(secret)),
        Err(fault) => Err(MeterFault::of_secret(fault)),
    }
}

/// The request for the text of an object.
fn text_script(alloc: Global, expected: &Expected<'_>) -> Result<Questions, AllocError> {
    let mut script = Questions::new(alloc);
    script.add(Question::Get(Descriptor {
        class: DATA,
        name: expected.name,
        id: VALUE,
    }))?;
    Ok(script)
}

/// The requests for attributes.
fn attribute_script(alloc: Global, names: &[Name]) -> Result<Attributes, AllocError> {
    let mut script = Attributes::new(alloc);
    for name in names {
        script.add(*name)?;
    }
    Ok(script)
}

/// The plan of a meter's client with this secret, if its addresses are valid. `read_list` gives no meter others; one that has others is
/// refused as a line that failed.
fn plan_for(meter: &Meter<'_>, secret: Option<ArrayVec<u8, 16>>) -> Result<Plan, MeterFault>
    ensures { IfOk result (λ plan. IsPlan (plan_of plan)) }
{
    let plan = Plan {
        route: meter.route,
        secret,
        size: SIZE,
    };
    if plan.is_lawful() {
        Ok(plan)
    } else {
        Err(MeterFault::Other(RunFault::Io))
    }
}

/// The second of a meter's clock at this second of the system's; 0 if no meter's clock can show it.
fn meter_second(second: u64) -> u32
    ensures { IsSystem second result }
{
    second_of(second).unwrap_or(0)
}

/// Out of memory.
const MEMORY: MeterFault = MeterFault::Other(RunFault::Memory);

impl<'r, R: Files<File = File> + Clock + AllocGlobal + RandomSource> Order<'r, R> {
    /// For the meter with this number, with this readings file or with none.
    fn new(number: usize, file: Option<MeterFile<'r, R>>) -> Self {
        Order {
            number,
            file,
            found: None,
            counters: None,
        }
    }

    /// The guard of the association, if it is protected. Its counters are reserved before it is used.
    fn guard(&mut self, rt: &R, meter: &Meter<'_>) -> Result<Option<Box<Guard>>, MeterFault> {
        let Some(file) = meter.security else {
            return Ok(None);
        };
        match protection_of(rt, file, None, POLL_COUNTERS) {
            Ok(Protection { guard, counters }) => {
                self.counters = Some(counters);
                Ok(Some(guard))
            }
            Err(fault) => Err(MeterFault::Guard(fault)),
        }
    }

    /// The last row of the readings file, if there is one.
    fn last(&self) -> Option<u32>
        ensures { IfSome result (λ second. second ≤ LAST_SECOND) }
    {
        match &self.file {
            Some(file) => file.last(),
            None => None,
        }
    }

    /// The job that polls the meter from the last row of its file on, with the order's number. `read_list` gives no meter an unlawful
    /// route; one that has one is refused as a line that failed.
    fn poll(&mut self, rt: &R, meter: &Meter<'_>) -> Result<Numbered<MeterJob>, MeterFault>
        ensures { IfOk result (λ job. IsNewPoll self.old.number meter.now.route job) }
    {
        let number = self.number;
        if !meter.route.is_lawful() {
            return Err(MeterFault::Other(RunFault::Io));
        }
        let secret = secret_for(rt, meter)?;
        let guard = self.guard(rt, meter)?;
        let terms = PollTerms {
            secret,
            after: self.last(),
            until: None,
            columns: Columns::Asked,
        };
        match PollJob::new(rt.alloc(), meter.route, terms, guard) {
            Ok(job) => Ok(Numbered {
                number,
                job: MeterJob::Poll(job),
            }),
            Err(_) => Err(MEMORY),
        }
    }

    /// The job that makes the requests of a script.
    fn ask<S: Drop>(
        &mut self,
        rt: &R,
        meter: &Meter<'_>,
        script: S,
    ) -> Result<Box<AskJob<S>>, MeterFault>
        ensures { IfOk result (λ job. job.value.script ≡ script) }
    {
        let plan = plan_for(meter, secret_for(rt, meter)?)?;
        let guard = self.guard(rt, meter)?;
        match AskJob::new(rt.alloc(), plan, guard, script) {
            Ok(job) => Ok(job),
            Err(_) => Err(MEMORY),
        }
    }

    /// The job that requests the text which the meter has to show.
    fn ask_text(
        &mut self,
        rt: &R,
        meter: &Meter<'_>,
        expected: &Expected<'_>,
    ) -> Result<Numbered<MeterJob>, MeterFault> {
        match text_script(rt.alloc(), expected) {
            Ok(script) => Ok(Numbered {
                number: self.number,
                job: MeterJob::Text(self.ask(rt, meter, script)?),
            }),
            Err(_) => Err(MEMORY),
        }
    }

    /// The job that requests these attributes.
    fn ask_values(
        &mut self,
        rt: &R,
        meter: &Meter<'_>,
        names: &[Name],
    ) -> Result<Numbered<MeterJob>, MeterFault> {
        match attribute_script(rt.alloc(), names) {
            Ok(script) => Ok(Numbered {
                number: self.number,
                job: MeterJob::Values(self.ask(rt, meter, script)?),
            }),
            Err(_) => Err(MEMORY),
        }
    }

    /// The job that reads the meter's clock, after it is corrected if it was found so in an order before. It begins at this second of the
    /// system's clock.
    fn ask_clock(
        &mut self,
        rt: &R,
        meter: &Meter<'_>,
        found: Option<Comparison>,
        second: u64,
    ) -> Result<Numbered<MeterJob>, MeterFault>
        ensures { IfOk result (IsNewClockJob self.old.number found second) }
    {
        let meter_number = self.number;
        self.found = found;
        let begins = meter_second(second);
        let script = ClockScript::new(rt.alloc(), found, begins);
        let job = self.ask(rt, meter, script)?;
        Ok(Numbered {
            number: meter_number,
            job: MeterJob::Clock(job),
        })
    }

    /// The order that requests the text which the meter has to show, and its job.
    pub fn for_text(
        rt: &'r R,
        number: usize,
        meter: &Meter<'_>,
        expected: &Expected<'_>,
    ) -> Result<(Self, Numbered<MeterJob>), MeterFault> {
        let mut order = Order::new(number, None);
        let job = order.ask_text(rt, meter, expected)?;
        Ok((order, job))
    }

    /// The order that polls the meter into its readings file in this folder, which it holds, and its job.
    pub fn for_poll(
        rt: &'r R,
        number: usize,
        meter: &Meter<'_>,
        folder: &str,
    ) -> Result<(Self, Numbered<MeterJob>), MeterFault> {
        let Ok(path) = path_of(rt.alloc(), folder, meter.name) else {
            return Err(MEMORY);
        };
        let mut order = Order::new(number, Some(MeterFile::open(rt, path)?));
        let job = order.poll(rt, meter)?;
        Ok((order, job))
    }

    /// The order that requests these attributes, and its job.
    pub fn for_values(
        rt: &'r R,
        number: usize,
        meter: &Meter<'_>,
        names: &[Name],
    ) -> Result<(Self, Numbered<MeterJob>), MeterFault> {
        let mut order = Order::new(number, None);
        let job = order.ask_values(rt, meter, names)?;
        Ok((order, job))
    }

    /// The order that reads the meter's clock, after it is corrected if it was found so, and its job, which begins at this second of the
    /// system's clock.
    pub fn for_clock(
        rt: &'r R,
        number: usize,
        meter: &Meter<'_>,
        found: Option<Comparison>,
        second: u64,
    ) -> Result<(Self, Numbered<MeterJob>), MeterFault> {
        let mut order = Order::new(number, None);
        let job = order.ask_clock(rt, meter, found, second)?;
        Ok((order, job))
    }

    /// Keeps the meter's counter after a protected association, whatever came of it. One whose first message is not newer than those of
    /// earlier associations is refused. The job of another meter is refused first.
    pub fn keep_counter(&mut self, job: &Numbered<MeterJob>) -> Result<(), MeterFault> {
        let job = match own_job(self.number, job) {
            Ok(job) => job,
            Err(fault) => return Err(fault),
        };
        let Some(mut counters) = self.counters.take() else {
            return Ok(());
        };
        let heeded = heed(
            &mut counters,
            job.peer(),
            job.first_accepted(),
            job.last_accepted(),
        );
        drop(counters);
        match heeded {
            Ok(()) => Ok(()),
            Err(fault) => Err(MeterFault::Guard(fault)),
        }
    }
}
