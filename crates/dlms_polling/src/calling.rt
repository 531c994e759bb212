//! A meter is called and polled. A line that is refused, lost or silent is tried again until the deadline.

ghost use Rattle.std.specs.Prelude.{◌≡◌, ◌↔◌, IfOk, IfSome, IsTrue, false};
ghost use Rattle.std.specs.IoError.{error_kind};
ghost use Rattle.dlms_headend.specs.Asking.{PlanValue};
ghost use Rattle.dlms_headend.specs.Polling.{fresh_poll};
ghost use Rattle.dlms_ends.specs.BothEnds.{IsDonePoll};
ghost use Rattle.dlms_polling.specs.Calling.{Attempts, Calls, GivesUp, IsOfCall, IsUnaskedAt, Knows, Prepares, Reaches, Renews, Waits, aim_of, is_lost, next_line};
ghost use Rattle.dlms_polling.specs.Doing.{Does, DoesLinked};
ghost use Rattle.dlms_polling.specs.Guards.{watch};
ghost use Rattle.dlms_polling.specs.Ways.{IsDoneBy, IsWay, outlasts, way_of};
ghost use Rattle.dlms_lines.specs.Deadline.{IsOver};

use crate::guards::Guards;
use crate::poll_inputs::PollInputs;
use crate::polling::Polling;
use crate::routed::{poll_in_clear, poll_secured};
use crate::way::{DonePoll, Way, again, fresh};
use dlms_call::CallFault;
use dlms_client::Fault;
use dlms_ends::{End, HeadEnd, PollTurn, RunFault, TURNS, dial};
use dlms_headend::{PollFault, Poller};
use dlms_identity::{Expected, first_other};
use dlms_lines::{Dialling, FieldFault, Timer, is_over};
use std::alloc::Global;
use std::io::ErrorKind;
use std::{io, slice};

/// The number of retries of a poll that does not bound them: each follows a pause of a second, and no deadline is that long.
pub const MOST_RETRIES: u32 = 131_071;

/// Whether a poll that may take this many seconds has to end at this one.
pub fn has_to_end(seconds: u32, time: u64) -> bool
    ensures { IsTrue result ↔ IsOver seconds time }
{
    is_over(u64::from(seconds), time)
}

/// Does a poll over the client's link; `None` if the deadline, this many seconds, is over. The clock is looked at before each turn.
#[inline(never)]
fn poll_within<T: Timer, S: End>(
    line: &mut S,
    timer: &mut T,
    seconds: u32,
    poller: Poller,
) -> Result<Option<Poller>, RunFault>
    ensures does { DoesLinked seconds (S.past line.old) (S.past line.new) (T.seen timer.old)
        (T.seen timer.new) poller result }
    ensures done { (plan : PlanValue) → poller ≡ fresh_poll plan
        → IfOk result (λ done. IfSome done (IsDonePoll plan)) }
{
    let mut head_end = HeadEnd::of(poller);
    dial(&mut head_end.poller, line)?;
    'turns: for _turn in 0..TURNS {
        let time = timer.seconds()?;
        if has_to_end(seconds, time) {
            return Ok(None);
        }
        match head_end.turn(line)? {
            PollTurn::Done => return Ok(Some(head_end.poller)),
            PollTurn::Sent => {}
        }
    }
    Err(RunFault::Poll(PollFault::Line))
}

/// Does a poll in this way over a connected line; `None` if the deadline, this many seconds, is over.
fn poll_by<T: Timer, S: End, G: Guards>(
    alloc: Global,
    line: &mut S,
    timer: &mut T,
    guards: &mut G,
    seconds: u32,
    way: &Way,
) -> Result<Option<DonePoll>, RunFault>
    requires { IsWay (way_of way.now) }
    ensures does { Does seconds (S.past line.old) (S.past line.new) (T.seen timer.old)
        (T.seen timer.new) (G.given guards.old) (G.given guards.new) (way_of way.now) result }
    ensures done { IfOk result (λ done. IfSome done (IsDoneBy (way_of way.now))) }
{
    match way {
        Way::Linked(plan) => match poll_within(line, timer, seconds, fresh(alloc, plan)) {
            Ok(Some(poller)) => Ok(Some(DonePoll::Linked(poller))),
            Ok(None) => Ok(None),
            Err(fault) => Err(fault),
        },
        Way::Routed(route, terms) => {
            match poll_in_clear(alloc, line, timer, seconds, *route, again(terms)) {
                Ok(Some(end)) => Ok(Some(DonePoll::Routed(end))),
                Ok(None) => Ok(None),
                Err(fault) => Err(fault),
            }
        }
        Way::Secured(route, terms) => {
            match poll_secured(alloc, line, timer, guards, seconds, *route, again(terms)) {
                Ok(Some(end)) => Ok(Some(DonePoll::Routed(end))),
                Ok(None) => Ok(None),
                Err(fault) => Err(fault),
            }
        }
    }
}

/// The fault of a poll that failed: if the line did, with the system's error.
fn line_fault<'a>(address: &'a str, fault: RunFault, failure: Option<io::Error>) -> FieldFault<'a>
    ensures { IsOfCall address.now fault result }
{
    match (fault, failure) {
        (RunFault::Io, Some(error)) => FieldFault::System(address, error),
        _ => FieldFault::Other(fault),
    }
}

/// Connects the line, unless it is connected already.
fn reach<L: Dialling>(
    line: &mut L,
    address: &str,
    seconds: u32,
    connected: bool,
) -> io::Result<bool>
    ensures { Reaches connected address.now (L.past line.old) (L.past line.new) result }
{
    if connected {
        return Ok(true);
    }
    line.connect(address, seconds)
}

/// The fault of a text that could not be asked for: if the line failed, with the system's error.
fn asking_fault<'a>(
    address: &'a str,
    fault: CallFault,
    failure: Option<io::Error>,
) -> FieldFault<'a>
    ensures { IsUnaskedAt address.now fault result }
{
    match (fault, failure) {
        (CallFault::Io, Some(error)) => FieldFault::System(address, error),
        _ => FieldFault::Unasked(address, fault),
    }
}

/// Asks for these texts, which the meter has to show.
#[inline(never)]
fn knows<'a, L: Dialling>(
    alloc: Global,
    line: &mut L,
    polling: &Polling<'a, '_>,
    way: &Way,
    expected: &[Expected<'a>],
) -> Result<(), FieldFault<'a>>
    requires { IsWay (way_of way.now) }
    ensures { Knows (aim_of polling.now (way_of way.now)) expected.now (L.past line.old)
        (L.past line.new) result }
{
    match first_other(alloc, line, &way.asker(), expected) {
        Ok(None) => Ok(()),
        Ok(Some(one)) => Err(FieldFault::Stranger(polling.address, one)),
        Err(fault) => Err(asking_fault(polling.address, fault, line.failure())),
    }
}

/// How many seconds are left of these.
fn left_of(seconds: u32, time: u64) -> u32 {
    seconds.saturating_sub(u32::try_from(time).unwrap_or(u32::MAX))
}

/// Connects the line anew, within the seconds that are left until the deadline. Returns whether that was done in time.
fn renew<'a, D: PollInputs, L: Dialling>(
    inputs: &mut D,
    line: &mut L,
    polling: &Polling<'a, '_>,
) -> Result<bool, FieldFault<'a>>
    ensures { Renews polling.now.address.now (L.past line.old) (L.past line.new)
        (D.seen inputs.old) (D.seen inputs.new) result }
{
    let time = match inputs.seconds() {
        Ok(time) => time,
        Err(error) => return Err(FieldFault::System(polling.address, error)),
    };
    match line.connect(polling.address, left_of(polling.deadline, time)) {
        Ok(is_connected) => Ok(is_connected),
        Err(error) => Err(FieldFault::System(polling.address, error)),
    }
}

/// Asks for one expected text after another, each over its own connection: after each the line is connected anew. Returns whether that
/// was done in time.
#[inline(never)]
fn knows_each<'a, D: PollInputs, L: Dialling>(
    alloc: Global,
    inputs: &mut D,
    line: &mut L,
    polling: &Polling<'a, '_>,
    way: &Way,
) -> Result<bool, FieldFault<'a>>
    requires { IsWay (way_of way.now) }
    ensures { Prepares false (aim_of polling.now (way_of way.now)) (L.past line.old)
        (L.past line.new) (D.seen inputs.old) (D.seen inputs.new) result }
{
    for one in polling.expected {
        match knows(alloc, line, polling, way, slice::from_ref(one)) {
            Ok(()) => {}
            Err(fault) => return Err(fault),
        }
        match renew(inputs, line, polling) {
            Ok(true) => {}
            Ok(false) => return Ok(false),
            Err(fault) => return Err(fault),
        }
    }
    Ok(true)
}

/// Asks for the expected texts, and makes the line ready for the poll. Returns whether that was done in time.
fn prepare<'a, D: PollInputs, L: Dialling>(
    alloc: Global,
    inputs: &mut D,
    line: &mut L,
    polling: &Polling<'a, '_>,
    way: &Way,
) -> Result<bool, FieldFault<'a>>
    requires { IsWay (way_of way.now) }
    ensures { Prepares (outlasts (way_of way.now)) (aim_of polling.now (way_of way.now))
        (L.past line.old) (L.past line.new) (D.seen inputs.old) (D.seen inputs.new) result }
{
    if !way.outlasts() {
        return knows_each(alloc, inputs, line, polling, way);
    }
    match knows(alloc, line, polling, way, polling.expected) {
        Ok(()) => Ok(true),
        Err(fault) => Err(fault),
    }
}

/// One attempt: the line is connected, within the seconds that are left, the expected texts are asked for, and the poll is done over it.
fn attempt<'a, D: PollInputs, L: Dialling, G: Guards>(
    alloc: Global,
    inputs: &mut D,
    guards: &mut G,
    line: &mut L,
    polling: &Polling<'a, '_>,
    way: &Way,
    left: u32,
    connected: bool,
) -> Result<Option<DonePoll>, FieldFault<'a>>
    requires { IsWay (way_of way.now) }
    ensures attempts { Attempts connected (aim_of polling.now (way_of way.now)) (L.past line.old)
        (L.past line.new) (watch (D.seen inputs.old) (G.given guards.old))
        (watch (D.seen inputs.new) (G.given guards.new)) result }
    ensures done { IfOk result (λ done. IfSome done (IsDoneBy (way_of way.now))) }
{
    match reach(line, polling.address, left, connected) {
        Ok(true) => {}
        Ok(false) => return Ok(None),
        Err(error) => return Err(FieldFault::System(polling.address, error)),
    }
    match prepare(alloc, inputs, line, polling, way) {
        Ok(true) => {}
        Ok(false) => return Ok(None),
        Err(fault) => return Err(fault),
    }
    match poll_by(alloc, line, inputs, guards, polling.deadline, way) {
        Ok(done) => Ok(done),
        Err(fault) => Err(line_fault(polling.address, fault, line.failure())),
    }
}

/// Whether an error says that a connection was refused or lost.
fn is_lost(error: io::Error) -> bool
    ensures { result ≡ is_lost (error_kind error) }
{
    match error.kind() {
        ErrorKind::ConnectionRefused
        | ErrorKind::ConnectionReset
        | ErrorKind::ConnectionAborted
        | ErrorKind::BrokenPipe
        | ErrorKind::UnexpectedEof
        | ErrorKind::TimedOut => true,
        _ => false,
    }
}

/// Whether another attempt is made after this fault, and whether over the same connection: if no answer came, over the same one if it
/// outlasts that; over a new one if this one was refused or lost.
fn next_line(way: &Way, fault: &FieldFault<'_>) -> Option<bool>
    ensures { result ≡ next_line (outlasts (way_of way.now)) fault.now }
{
    match fault {
        FieldFault::Other(RunFault::Poll(PollFault::Line)) => Some(way.outlasts()),
        FieldFault::Unasked(_, CallFault::Talk(Fault::Line)) => Some(way.outlasts()),
        FieldFault::System(_, error) => { if is_lost(*error) { Some(false) } else { None } }
        _ => None,
    }
}

/// Lets a second go by, and looks at the clock; none if the deadline is over then.
fn wait<'a, D: PollInputs>(
    inputs: &mut D,
    address: &'a str,
    seconds: u32,
) -> Result<Option<u64>, FieldFault<'a>>
    ensures { Waits address.now seconds (D.seen inputs.old) (D.seen inputs.new) result }
{
    inputs.pause();
    match inputs.seconds() {
        Ok(time) => {
            if has_to_end(seconds, time) {
                Ok(None)
            } else {
                Ok(Some(time))
            }
        }
        Err(error) => Err(FieldFault::System(address, error)),
    }
}

/// The outcome at the deadline after this fault: the fault itself, if the system has a message for it.
fn outcome_at_deadline<'a>(fault: FieldFault<'a>) -> Result<Option<DonePoll>, FieldFault<'a>>
    ensures { GivesUp fault.entry result }
{
    match fault {
        FieldFault::System(address, error) => Err(FieldFault::System(address, error)),
        _ => Ok(None),
    }
}

/// Calls a meter, and polls it in this way, once it has shown the expected texts. Returns the poll that is done, with its rows, and none
/// if the seconds are over before. A connection that is refused or lost is made again, and a meter that does not answer is asked again, a
/// second later, until then: over the same connection, but over the wrapper over a new one. After this number of retries the fault of
/// the last attempt is returned. If the line failed, the fault has the system's error. A way that asks for protection has a new guard in
/// each attempt.
pub fn call<'a, D: PollInputs, L: Dialling, G: Guards>(
    alloc: Global,
    inputs: &mut D,
    guards: &mut G,
    line: &mut L,
    polling: &Polling<'a, '_>,
    way: &Way,
) -> Result<Option<DonePoll>, FieldFault<'a>>
    requires { IsWay (way_of way.now) }
    ensures calls { Calls (aim_of polling.now (way_of way.now)) (L.past line.old)
        (L.past line.new) (watch (D.seen inputs.old) (G.given guards.old))
        (watch (D.seen inputs.new) (G.given guards.new)) result }
    ensures done { IfOk result (λ done. IfSome done (IsDoneBy (way_of way.now))) }
{
    match inputs.start() {
        Ok(()) => {}
        Err(error) => return Err(FieldFault::System(polling.address, error)),
    }
    let mut connected = false;
    let mut left = polling.deadline;
    'attempts: for _attempt in 0..polling.retries {
        let fault = match attempt(alloc, inputs, guards, line, polling, way, left, connected) {
            Ok(found) => return Ok(found),
            Err(fault) => fault,
        };
        let Some(next) = next_line(way, &fault) else {
            return Err(fault);
        };
        match wait(inputs, polling.address, polling.deadline) {
            Ok(Some(time)) => left = left_of(polling.deadline, time),
            Ok(None) => return outcome_at_deadline(fault),
            Err(fault) => return Err(fault),
        }
        connected = next;
    }
    attempt(alloc, inputs, guards, line, polling, way, left, connected)
}
