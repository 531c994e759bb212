//! The requests that read a meter's clock, and those that correct it before.

ghost use Rattle.std.specs.Prelude.{◌≡◌, IfOk};
ghost use Rattle.dlms_inquiries.specs.ClockScripts.{Begins, Ends, IsNewScript, Keeps, ReadsLast, ReadsTime, Sets, clock_part, is_done, is_given};

use crate::clock::{Comparison, shift_for};
use crate::script::{Question, Script};
use dlms_client::Answer;
use dlms_data::{Data, Descriptor, octet_string_of};
use std::alloc::{AllocError, Global};

/// The class Clock, and the name of a meter's clock (IEC 62056-6-2, Clock, class 8; IEC 62056-6-1).
const CLOCK: u16 = 8;

const CODE: [u8; 6] = [0, 0, 1, 0, 0, 255];

/// Its attribute time, and its method shift_time.
pub const TIME: u8 = 2;

pub const SHIFT_TIME: u8 = 6;

/// What was done to a clock.
#[derive(Clone, Copy, PartialEq, Eq)]
pub enum Correction {
    Nothing,
    Shifted,
    Set,
}

/// The request that was made last.
#[derive(Clone, Copy)]
enum Stage {
    Start,
    Shift,
    /// The time is read before it is set.
    Time,
    Set,
    /// The time is read after everything else.
    Last,
}

/// The requests that read a clock; before that they correct it, if it was found to be off: by a shift, or else by the time.
#[derive(Drop)]
pub struct ClockScript {
    alloc: Global,
    /// How the clock was found, if it is to be corrected.
    found: Option<Comparison>,
    /// The second of the system's clock when the requests began.
    second: u32,
    stage: Stage,
    done: Correction,
    /// The answer to the last request, and the encoding of the time if it is one.
    answer: Option<Answer>,
    shown: Vec<u8>,
}

/// The attribute or method of a meter's clock with this number.
pub fn clock_part(id: u8) -> Descriptor
    ensures { result ≡ clock_part id }
{
    Descriptor {
        class: CLOCK,
        name: CODE,
        id,
    }
}

/// Whether the meter did what was requested.
fn is_done(answer: Option<Answer>) -> bool
    ensures { result ≡ is_done answer }
{
    matches!(answer, Some(Answer::Value | Answer::Result(0)))
}

/// Whether a value came.
fn is_given(answer: Option<Answer>) -> bool
    ensures { result ≡ is_given answer }
{
    matches!(answer, Some(Answer::Value))
}

impl ClockScript {
    /// Requests the time of a clock; before that it corrects the clock, if it was found so. It begins at this second of the system's
    /// clock, counted from 2000-01-01 00:00:00.
    pub fn new(alloc: Global, found: Option<Comparison>, second: u32) -> Self
        ensures { IsNewScript found second result }
    {
        ClockScript {
            alloc,
            found,
            second,
            stage: Stage::Start,
            done: Correction::Nothing,
            answer: None,
            shown: Vec::new(alloc),
        }
    }

    /// What was done to the clock.
    pub fn done(&self) -> Correction
        ensures { result ≡ self.now.done }
    {
        self.done
    }

    /// The answer to the last request, once there is no other.
    pub fn answer(&self) -> Option<Answer>
        ensures { result ≡ self.now.answer }
    {
        self.answer
    }

    /// The encoding of the clock's time, if the last answer is a value.
    pub fn shown(&self) -> &[u8]
        ensures { result.now ≡ self.now.shown.items }
    {
        self.shown.as_slice()
    }

    /// Requests the time for the last time.
    fn read_last(&mut self, done: Correction) -> Option<Question>
        ensures { ReadsLast done self.old result self.new }
    {
        self.done = done;
        self.stage = Stage::Last;
        Some(Question::Get(clock_part(TIME)))
    }

    /// Requests the time before it is set.
    fn read_time(&mut self) -> Option<Question>
        ensures { ReadsTime self.old result self.new }
    {
        self.stage = Stage::Time;
        Some(Question::Get(clock_part(TIME)))
    }

    /// The first request: a shift, the time that is then set, or the time alone.
    fn begin(&mut self) -> Option<Question>
        ensures { Begins self.old result self.new }
    {
        let Some(found) = self.found else {
            return self.read_last(Correction::Nothing);
        };
        let Some(seconds) = shift_for(found.ahead()) else {
            return self.read_time();
        };
        self.stage = Stage::Shift;
        Some(Question::Act(clock_part(SHIFT_TIME), Some(Data::Long(seconds))))
    }

    /// Sets the clock, which has this time now.
    fn set(&mut self, encoding: &[u8]) -> Result<Option<Question>, AllocError>
        ensures { IfOk result (λ next. Sets self.old encoding.now next self.new) }
    {
        let Some(found) = self.found else {
            return Ok(self.end(None));
        };
        let time = octet_string_of(self.alloc, &found.time_now(encoding, self.second))?;
        self.stage = Stage::Set;
        Ok(Some(Question::Set(clock_part(TIME), time)))
    }

    /// There is no other request.
    fn end(&mut self, answer: Option<Answer>) -> Option<Question>
        ensures { Ends answer self.old result self.new }
    {
        self.answer = answer;
        None
    }

    /// Keeps the answer to the last request, and the encoding of the time if it is one.
    fn keep(
        &mut self,
        answer: Option<Answer>,
        encoding: &[u8],
    ) -> Result<Option<Question>, AllocError>
        ensures { IfOk result (λ next. Keeps answer self.old encoding.now next self.new) }
    {
        if is_given(answer) {
            self.shown = Vec::from_slice(self.alloc, encoding)?;
        }
        Ok(self.end(answer))
    }
}

impl Script for ClockScript {
    ghost use Rattle.dlms_inquiries.specs.ClockScripts.{ClockFollows};

    ghost follows = { ClockFollows };

    fn next(
        &mut self,
        answer: Option<Answer>,
        value: &[u8],
    ) -> Result<Option<Question>, AllocError> {
        match self.stage {
            Stage::Start => Ok(self.begin()),
            Stage::Shift if is_done(answer) => Ok(self.read_last(Correction::Shifted)),
            Stage::Shift => Ok(self.read_time()),
            Stage::Time if is_given(answer) => self.set(value),
            Stage::Time => Ok(self.end(answer)),
            Stage::Set if is_done(answer) => Ok(self.read_last(Correction::Set)),
            Stage::Set => Ok(self.end(answer)),
            Stage::Last => self.keep(answer, value),
        }
    }
}
