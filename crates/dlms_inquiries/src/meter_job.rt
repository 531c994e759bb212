//! What a seat of a collection does: a poll, or requests.

ghost use Rattle.std.specs.Prelude.{◌≡◌};
ghost use Rattle.dlms_inquiries.specs.MeterJobs.{of_inquiry, of_poll};

use crate::ask_job::AskJob;
use crate::attributes::Attributes;
use crate::clock_script::ClockScript;
use crate::fault::InquiryFault;
use crate::questions::Questions;
use dlms_ends::RunFault;
use dlms_fleet::{Job, JobStep};
use dlms_jobs::PollJob;

/// The job of a seat, on the heap.
#[derive(Drop)]
pub enum MeterJob {
    /// The meter is polled.
    Poll(Box<PollJob>),
    /// The text that it has to show is requested.
    Text(Box<AskJob<Questions>>),
    /// Attributes are requested by their names.
    Values(Box<AskJob<Attributes>>),
    /// Its clock is read, and corrected before if it was found to be off.
    Clock(Box<AskJob<ClockScript>>),
}

/// Why a job failed.
#[derive(Clone, Copy)]
pub enum JobFault {
    Poll(RunFault),
    Ask(InquiryFault),
}

/// The step of a poll as that of any job.
fn of_poll(step: JobStep<Vec<u8>, RunFault>) -> JobStep<Vec<u8>, JobFault>
    ensures { result ≡ of_poll step }
{
    match step {
        JobStep::Nothing => JobStep::Nothing,
        JobStep::Sends(message) => JobStep::Sends(message),
        JobStep::Done => JobStep::Done,
        JobStep::Fails(fault) => JobStep::Fails(JobFault::Poll(fault)),
    }
}

/// The step of requests as that of any job.
fn of_inquiry(step: JobStep<Vec<u8>, InquiryFault>) -> JobStep<Vec<u8>, JobFault>
    ensures { result ≡ of_inquiry step }
{
    match step {
        JobStep::Nothing => JobStep::Nothing,
        JobStep::Sends(message) => JobStep::Sends(message),
        JobStep::Done => JobStep::Done,
        JobStep::Fails(fault) => JobStep::Fails(JobFault::Ask(fault)),
    }
}

impl MeterJob {
    /// The meter's system title, to be stored; none before the meter sent it, or without a guard.
    pub fn peer(&self) -> Option<[u8; 8]> {
        match self {
            MeterJob::Poll(job) => job.peer(),
            MeterJob::Text(job) => job.peer(),
            MeterJob::Values(job) => job.peer(),
            MeterJob::Clock(job) => job.peer(),
        }
    }

    /// The counter of the first message that the guard accepted, by which the association is judged; none without a guard.
    pub fn first_accepted(&self) -> Option<u32> {
        match self {
            MeterJob::Poll(job) => job.first_accepted(),
            MeterJob::Text(job) => job.first_accepted(),
            MeterJob::Values(job) => job.first_accepted(),
            MeterJob::Clock(job) => job.first_accepted(),
        }
    }

    /// The counter of the meter that the guard accepted last, to be stored; none without a guard.
    pub fn last_accepted(&self) -> Option<u32> {
        match self {
            MeterJob::Poll(job) => job.last_accepted(),
            MeterJob::Text(job) => job.last_accepted(),
            MeterJob::Values(job) => job.last_accepted(),
            MeterJob::Clock(job) => job.last_accepted(),
        }
    }
}

impl Job for MeterJob {
    ghost use Rattle.dlms_inquiries.specs.MeterJobs.{MeterSteps};

    type Message = Vec<u8>;

    type Fault = JobFault;

    ghost steps = { MeterSteps };

    fn begin(&mut self) -> JobStep<Vec<u8>, JobFault> {
        match self {
            MeterJob::Poll(job) => of_poll(job.begin()),
            MeterJob::Text(job) => of_inquiry(job.begin()),
            MeterJob::Values(job) => of_inquiry(job.begin()),
            MeterJob::Clock(job) => of_inquiry(job.begin()),
        }
    }

    fn read(&mut self, bytes: &[u8]) -> JobStep<Vec<u8>, JobFault> {
        match self {
            MeterJob::Poll(job) => of_poll(job.read(bytes)),
            MeterJob::Text(job) => of_inquiry(job.read(bytes)),
            MeterJob::Values(job) => of_inquiry(job.read(bytes)),
            MeterJob::Clock(job) => of_inquiry(job.read(bytes)),
        }
    }

    fn timeout(&mut self) -> JobStep<Vec<u8>, JobFault> {
        match self {
            MeterJob::Poll(job) => of_poll(job.timeout()),
            MeterJob::Text(job) => of_inquiry(job.timeout()),
            MeterJob::Values(job) => of_inquiry(job.timeout()),
            MeterJob::Clock(job) => of_inquiry(job.timeout()),
        }
    }
}
