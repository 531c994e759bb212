//! The trait of a job: it is driven by what happens on its line, and never waits.

/// What a job does after an input.
#[derive(Drop)]
pub enum JobStep<M, E> {
    /// It waits for more.
    Nothing,
    /// It sends this message, and waits for an answer.
    Sends(M),
    /// It is done.
    Done,
    /// It failed.
    Fails(E),
}

/// A job that is driven by what happens on its line. Its calls return at once: it reads no clock and no socket.
pub trait Job {
    ghost use Rattle.dlms_fleet.specs.Inputs.{Input};
    ghost use Rattle.dlms_fleet.specs.Inputs.Input.{Begins, Reads, TimesOut};
    ghost use Rattle.dlms_fleet.specs.declared.job.JobStep.{JobStep};

    /// What it sends.
    type Message: Drop;

    /// Why it fails.
    type Fault: Drop;

    /// The job before an input, the input, the step that it takes, and the job after it. It is a relation: memory may be refused.
    ghost steps: { Self → Input → JobStep Self.Message Self.Fault → Self → Type 0 };

    /// The line is connected, and was quiet for as long as the limits ask.
    fn begin(&mut self) -> JobStep<Self::Message, Self::Fault>
        ensures { steps self.old Begins result self.new };

    /// These bytes arrived.
    fn read(&mut self, bytes: &[u8]) -> JobStep<Self::Message, Self::Fault>
        ensures { steps self.old (Reads bytes.now) result self.new };

    /// No byte arrived for as long as an answer may take, or the line was lost.
    fn timeout(&mut self) -> JobStep<Self::Message, Self::Fault>
        ensures { steps self.old TimesOut result self.new };
}

/// A job on the heap: a free seat of a fleet has no memory of a job.
impl<T: Job> Job for Box<T> {
    type Message = T::Message;

    type Fault = T::Fault;

    ghost steps = { λ old input step new. T.steps old.value input step new.value };

    fn begin(&mut self) -> JobStep<T::Message, T::Fault> {
        (**self).begin()
    }

    fn read(&mut self, bytes: &[u8]) -> JobStep<T::Message, T::Fault> {
        (**self).read(bytes)
    }

    fn timeout(&mut self) -> JobStep<T::Message, T::Fault> {
        (**self).timeout()
    }
}
