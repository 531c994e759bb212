//! One running job: the phase of its line, and its ticks.
ghost use Rattle.std.specs.Prelude.{◌≡◌, ◌-◌};
ghost use Rattle.dlms_fleet.specs.Inputs.Input.{Begins, Reads, TimesOut};
ghost use Rattle.dlms_fleet.specs.RunningJob.{Connects, Loses, Makes, RunningSteps, TakesBytes, TakesTick, moment_of, new_running, outcome_of_loss};

use crate::job::{Job, JobStep};

/// The limits of a job, in ticks.
#[derive(Clone, Copy)]
pub struct Limits {
    /// After this many ticks a job has ended. It ends at its first tick if this is 0 or 1.
    pub deadline: u32,
    /// For this many ticks in a row no byte arrives before a job begins; at 0 it begins as its line is connected.
    pub quiet: u32,
    /// An answer may take this many ticks; then the job gets a timeout. At 0 it is taken for 1.
    pub answer: u32,
}

/// The phase of a job's line.
#[derive(Clone, Copy)]
pub enum Phase {
    /// It is not connected yet.
    Connecting,
    /// It is connected, and has to be quiet for this many more ticks.
    Quiet(u32),
    /// The job has begun, and an answer may take this many more ticks.
    Asking(u32),
}

/// What happens to a running job.
#[derive(Clone, Copy)]
pub enum Moment<'a> {
    /// Its line is connected.
    Connected,
    /// These bytes arrived.
    Bytes(&'a [u8]),
    /// Its line is closed, or failed.
    Lost,
    /// A tick of the clock.
    Tick,
}

/// How a job ended.
#[derive(Drop)]
pub enum Outcome<E> {
    Done,
    Fails(E),
    /// Its line was closed, or failed.
    Lost,
    /// It reached its deadline.
    Late,
}

/// What a running job does at a moment.
#[derive(Drop)]
pub enum Step<M, E> {
    Nothing,
    /// It sends this message.
    Sends(M),
    /// It ended.
    Ends(Outcome<E>),
}

/// A running job.
#[derive(Drop)]
pub struct Running<T> {
    pub job: T,
    pub phase: Phase,
    /// It ends within this many ticks.
    pub left: u32,
}

/// What a running job does if its job takes this step. If a message is sent, its answer may take `answer` ticks from now on.
fn made<M: Drop, E: Drop>(answer: u32, phase: &mut Phase, step: JobStep<M, E>) -> Step<M, E>
    ensures { Makes answer phase.old step result phase.new }
{
    match step {
        JobStep::Nothing => Step::Nothing,
        JobStep::Sends(message) => {
            *phase = Phase::Asking(answer);
            Step::Sends(message)
        }
        JobStep::Done => Step::Ends(Outcome::Done),
        JobStep::Fails(fault) => Step::Ends(Outcome::Fails(fault)),
    }
}

/// The outcome of a job whose line was lost, and that took this step for a timeout: it is done only if it says so.
fn outcome_of_loss<M: Drop, E: Drop>(step: JobStep<M, E>) -> Outcome<E>
    ensures { result ≡ outcome_of_loss step }
{
    match step {
        JobStep::Done => Outcome::Done,
        JobStep::Nothing | JobStep::Sends(_) | JobStep::Fails(_) => Outcome::Lost,
    }
}

impl<T: Job> Running<T> {
    /// A job that begins once its line is connected and quiet.
    pub fn new(limits: Limits, job: T) -> Self
        ensures { result ≡ new_running limits job }
    {
        Running {
            job,
            phase: Phase::Connecting,
            left: limits.deadline,
        }
    }

    /// The line is connected: it has to be quiet first, or the job begins.
    fn connect(&mut self, limits: Limits) -> Step<T::Message, T::Fault>
        ensures { Connects T.steps limits self.old.phase self.old result self.new }
    {
        match self.phase {
            Phase::Connecting => {
                if limits.quiet > 0 {
                    self.phase = Phase::Quiet(limits.quiet);
                    return Step::Nothing;
                }
                self.phase = Phase::Asking(limits.answer);
                made(limits.answer, &mut self.phase, self.job.begin())
            }
            Phase::Quiet(_) | Phase::Asking(_) => Step::Nothing,
        }
    }

    /// These bytes arrived. They are dropped if the job has not begun, and the line has to be quiet again.
    fn read(&mut self, limits: Limits, bytes: &[u8]) -> Step<T::Message, T::Fault>
        ensures { TakesBytes T.steps limits bytes.now self.old.phase self.old result self.new }
    {
        match self.phase {
            Phase::Connecting => Step::Nothing,
            Phase::Quiet(_) => {
                self.phase = Phase::Quiet(limits.quiet);
                Step::Nothing
            }
            Phase::Asking(_) => made(limits.answer, &mut self.phase, self.job.read(bytes)),
        }
    }

    /// The line is lost. A job that has all its data, and only awaits the answer to its release, is done at a timeout, and so here.
    fn lose(&mut self) -> Step<T::Message, T::Fault>
        ensures { Loses T.steps self.old.phase self.old result self.new }
    {
        match self.phase {
            Phase::Connecting | Phase::Quiet(_) => Step::Ends(Outcome::Lost),
            Phase::Asking(_) => Step::Ends(outcome_of_loss(self.job.timeout())),
        }
    }

    /// A tick that is not the last one.
    fn tick(&mut self, limits: Limits) -> Step<T::Message, T::Fault>
        ensures { TakesTick T.steps limits self.old.phase self.old result self.new }
    {
        match self.phase {
            Phase::Connecting => Step::Nothing,
            Phase::Quiet(ticks) => {
                if ticks > 1 {
                    self.phase = Phase::Quiet(ticks - 1);
                    return Step::Nothing;
                }
                self.phase = Phase::Asking(limits.answer);
                made(limits.answer, &mut self.phase, self.job.begin())
            }
            Phase::Asking(ticks) => {
                if ticks > 1 {
                    self.phase = Phase::Asking(ticks - 1);
                    return Step::Nothing;
                }
                self.phase = Phase::Asking(limits.answer);
                made(limits.answer, &mut self.phase, self.job.timeout())
            }
        }
    }

    /// A moment of the job's line, or a tick. At the last tick of its deadline it is late.
    pub fn on(&mut self, limits: Limits, moment: Moment<'_>) -> Step<T::Message, T::Fault>
        ensures { RunningSteps T.steps limits self.old (moment_of moment.entry) result self.new }
    {
        match moment {
            Moment::Connected => self.connect(limits),
            Moment::Bytes(bytes) => self.read(limits, bytes),
            Moment::Lost => self.lose(),
            Moment::Tick => {
                if self.left <= 1 {
                    return Step::Ends(Outcome::Late);
                }
                self.left -= 1;
                self.tick(limits)
            }
        }
    }
}
