//! Why a collection ended early, and why a meter failed.

use crate::list_fault::ListFault;
use dlms_call::CallFault;
use dlms_client::{Denial, Fault};
use dlms_ends::RunFault;
use dlms_guards::GuardFault;
use dlms_headend::PollFault;
use dlms_identity::Expected;
use dlms_inquiries::{InquiryFault, JobFault};
use dlms_lines::{ClockFault, FieldFault};
use std::alloc::{AllocError, AllocFailed};
use std::io;

/// Why a collection ended early.
#[derive(Clone, Copy)]
pub enum CollectFault<'a> {
    /// The list is refused.
    List(ListFault<'a>),
    /// A call of the system for this file or folder failed.
    System(&'a str, io::Error),
    /// The system's events could not be waited for, or its clock could not be read.
    Wait(io::Error),
    /// The rows could not be printed.
    Output,
    /// Out of memory.
    Memory,
}

impl From<AllocError> for CollectFault<'_> {
    fn from(_fault: AllocError) -> Self {
        CollectFault::Memory
    }
}

impl<T: Drop> From<AllocFailed<T>> for CollectFault<'_> {
    fn from(_fault: AllocFailed<T>) -> Self {
        CollectFault::Memory
    }
}

/// Why a meter did not give an attribute.
#[derive(Clone, Copy)]
pub enum Refusal {
    /// Its object list does not have the object.
    Class,
    /// It gave this access result.
    Result(u8),
    /// It does not serve the request.
    Denied(Denial),
}

/// Why a meter failed.
#[derive(Clone, Copy)]
pub enum MeterFault {
    /// A call of the system for its readings file failed.
    File(io::Error),
    /// The file of its secret could not be read.
    SecretFile(io::Error),
    /// The secret has more than 16 bytes.
    Secret,
    /// Its host was not found, or its connection was refused or lost.
    Line(io::Error),
    /// The poll was not done before its deadline.
    Late,
    /// One of its rows is refused for its clock.
    Clock(ClockFault),
    /// Its association could not be protected, or its counter was not kept.
    Guard(GuardFault),
    /// It shows another text than the expected one, or none.
    Stranger,
    /// Its requests ended early.
    Call(CallFault),
    /// It did not give the attribute with this number.
    Refused(usize, Refusal),
    /// Its seat handed back the job of another meter: no seat does.
    AnotherJob,
    /// Anything else.
    Other(RunFault),
}

/// The fault of requests that ended early, as `get` reports it.
fn of_inquiry(fault: InquiryFault) -> CallFault {
    match fault {
        InquiryFault::Talk(fault) => CallFault::Talk(fault),
        InquiryFault::Insecure(fault) => CallFault::Insecure(fault),
        InquiryFault::TooLong => CallFault::TooLong,
        InquiryFault::Memory => CallFault::Memory,
    }
}

impl MeterFault {
    /// Why a job failed.
    pub fn of_job(fault: JobFault) -> Self {
        match fault {
            JobFault::Poll(fault) => MeterFault::Other(fault),
            JobFault::Ask(fault) => MeterFault::Call(of_inquiry(fault)),
        }
    }

    /// Why a call for the readings file failed.
    pub fn of_file(fault: FieldFault<'_>) -> Self {
        match fault {
            FieldFault::System(_, error) => MeterFault::File(error),
            FieldFault::Clock(_, fault) => MeterFault::Clock(fault),
            FieldFault::Other(fault) => MeterFault::Other(fault),
            _ => MeterFault::Other(RunFault::Io),
        }
    }

    /// Why the secret was not read.
    pub fn of_secret(fault: FieldFault<'_>) -> Self {
        match fault {
            FieldFault::System(_, error) => MeterFault::SecretFile(error),
            FieldFault::Other(fault) => MeterFault::Other(fault),
            _ => MeterFault::Secret,
        }
    }

    /// Whether another attempt may succeed: the connection was refused or lost, or no answer came.
    pub fn may_pass(&self) -> bool {
        match self {
            MeterFault::Line(_) | MeterFault::Late => true,
            MeterFault::Other(RunFault::Poll(PollFault::Line)) => true,
            MeterFault::Call(CallFault::Talk(Fault::Line)) => true,
            _ => false,
        }
    }

    /// The fault that `poll` or `get` reports for this meter.
    pub fn of_meter<'a>(&self, meter: &MeterNames<'a>) -> MeterFailure<'a> {
        MeterFailure::Poll(match *self {
            MeterFault::Guard(fault) => return MeterFailure::Guard(fault),
            MeterFault::Refused(number, refusal) => {
                return MeterFailure::Attribute(meter.attribute(number), refusal);
            }
            MeterFault::File(error) => FieldFault::System(meter.file, error),
            MeterFault::SecretFile(error) => FieldFault::System(meter.secret_file, error),
            MeterFault::Secret => FieldFault::Secret,
            MeterFault::Line(error) => FieldFault::System(meter.place, error),
            MeterFault::Late => FieldFault::Late(meter.place, meter.deadline),
            MeterFault::Clock(fault) => FieldFault::Clock(meter.place, fault),
            MeterFault::Stranger => match meter.expected {
                Some(expected) => FieldFault::Stranger(meter.place, expected),
                None => FieldFault::Other(RunFault::Io),
            },
            MeterFault::Call(fault) => FieldFault::Unasked(meter.place, fault),
            MeterFault::AnotherJob => FieldFault::Other(RunFault::Io),
            MeterFault::Other(fault) => FieldFault::Other(fault),
        })
    }
}

/// The words by which a fault names a meter, its files and its attributes.
#[derive(Clone, Copy)]
pub struct MeterNames<'a> {
    /// Its host, or its host and its port, as the list has them.
    pub place: &'a str,
    /// Its readings file.
    pub file: &'a str,
    /// The file of its client's secret; empty if there is none.
    pub secret_file: &'a str,
    /// The text that it has to show.
    pub expected: Option<Expected<'a>>,
    /// The names of the attributes, with commas between them.
    pub attributes: &'a str,
    /// The seconds that it may take.
    pub deadline: u32,
}

/// The name with this number in a list with commas.
pub fn nth_name(names: &str, number: usize) -> &str {
    let mut rest = names;
    for _ in 0..number {
        let Some((_, behind)) = rest.split_once(',') else {
            return "";
        };
        rest = behind;
    }
    match rest.split_once(',') {
        Some((name, _)) => name,
        None => rest,
    }
}

impl<'a> MeterNames<'a> {
    /// The name of the attribute with this number.
    fn attribute(&self, number: usize) -> &'a str {
        nth_name(self.attributes, number)
    }
}

/// The fault that `poll` or `get` reports for a meter.
#[derive(Clone, Copy)]
pub enum MeterFailure<'a> {
    /// The poll or its file failed.
    Poll(FieldFault<'a>),
    /// The association could not be protected, or the meter's counter was not kept.
    Guard(GuardFault),
    /// The meter did not give the attribute of this name.
    Attribute(&'a str, Refusal),
}

/// A meter that failed.
#[derive(Clone, Copy)]
pub struct FailedMeter<'a> {
    /// Its name in the list.
    pub name: &'a str,
    /// Its host, or its host and its port, as the list has them.
    pub place: &'a str,
    /// Its readings file.
    pub file: &'a str,
    /// The file of its client's secret; empty if there is none.
    pub secret_file: &'a str,
    /// The file of its client's settings; empty if the association is in clear.
    pub security: &'a str,
    /// The fault that `poll` or `get` reports.
    pub fault: MeterFailure<'a>,
}

/// The messages of meters that failed.
pub trait FaultText {
    /// Appends the line about a meter that failed, with its line feed.
    fn append_fault(&self, text: &mut Vec<u8>, failed: &FailedMeter<'_>) -> Result<(), AllocError>;
}
