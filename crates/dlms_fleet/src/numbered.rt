//! Jobs with numbers: what a seat hands back has the number of the job that was started there.

use crate::job::{Job, JobStep};

/// A job with a number, which no step changes.
#[derive(Drop)]
pub struct Numbered<T> {
    pub number: usize,
    pub job: T,
}

impl<T: Job> Job for Numbered<T> {
    ghost use Rattle.dlms_fleet.specs.Numbers.{NumberedSteps};

    type Message = T::Message;

    type Fault = T::Fault;

    ghost steps = { NumberedSteps T.steps };

    fn begin(&mut self) -> JobStep<T::Message, T::Fault> {
        self.job.begin()
    }

    fn read(&mut self, bytes: &[u8]) -> JobStep<T::Message, T::Fault> {
        self.job.read(bytes)
    }

    fn timeout(&mut self) -> JobStep<T::Message, T::Fault> {
        self.job.timeout()
    }
}
