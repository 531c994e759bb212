//! A poll over a route, until a deadline.

ghost use Rattle.dlms_headend.specs.Asking.{AreSeconds};
ghost use Rattle.std.specs.Prelude.{◌≡◌, ◌≤◌, IfOk, IfSome, None, option_map};
ghost use Rattle.dlms_carrier.specs.Any.{IsRoute};
ghost use Rattle.dlms_ends.specs.Carried.{is_down};
ghost use Rattle.dlms_ends.specs.PollEnds.{IsPolledOver, Listens};
ghost use Rattle.dlms_headend.specs.CarrierPollValue.{terms_of};
ghost use Rattle.dlms_headend.specs.CarrierPolling.{CanBegin};
ghost use Rattle.dlms_lines.specs.Watching.{error_in};
ghost use Rattle.dlms_polling.specs.Doing.{DoesOver, DoesRouted, DoesSecured, PollsUntil, kept_so};
ghost use Rattle.dlms_polling.specs.Guards.{nothing, oldest_after};
ghost use Rattle.dlms_polling.specs.Ways.{IsPolledSecured};

use crate::calling::has_to_end;
use crate::guards::{Accepted, Guards, oldest_after};
use dlms_client::Route;
use dlms_ends::{End, PollEnd, RunFault};
use dlms_headend::{PollFault, PollOutcome, PollTerms};
use dlms_lines::Timer;
use dlms_secured::Guard;
use std::alloc::Global;

/// The most reads of the line in a poll over a route.
pub const READS: u32 = 16_777_216;

/// Reads the line once, and keeps in mind which counter of the meter was accepted first.
fn hear<S: End>(
    line: &mut S,
    poll: &mut PollEnd,
    oldest: &mut Option<u32>,
) -> Result<PollOutcome, RunFault>
    ensures listens { Listens (S.past line.old) (S.past line.new) poll.old result poll.new }
    ensures oldest { oldest.new ≡ oldest_after oldest.old poll.new }
{
    let told = poll.listen(line);
    *oldest = oldest_after(*oldest, poll);
    told
}

/// Polls over a line whose other end is the meter, and returns whether that was done before the deadline, this many seconds, was over.
/// The clock is looked at before each read of the line.
#[inline(never)]
fn poll_until<T: Timer, S: End>(
    line: &mut S,
    timer: &mut T,
    seconds: u32,
    poll: &mut PollEnd,
    oldest: &mut Option<u32>,
) -> Result<bool, RunFault>
    requires { CanBegin is_down poll.old.poll }
    ensures { PollsUntil seconds (S.past line.old) (S.past line.new) (T.seen timer.old)
        (T.seen timer.new) poll.old result oldest.new poll.new }
{
    *oldest = None;
    match poll.dial(line) {
        Ok(()) => {}
        Err(fault) => return Err(fault),
    }
    'reads: for _read in 0..READS {
        let time = timer.seconds()?;
        if has_to_end(seconds, time) {
            return Ok(false);
        }
        match hear(line, poll, oldest) {
            Ok(PollOutcome::Nothing) => {}
            Ok(PollOutcome::Done) => return Ok(true),
            Err(fault) => return Err(fault),
        }
    }
    Err(RunFault::Poll(PollFault::Line))
}

/// Does a poll over this route, by these terms, over a line whose other end is the meter, with this guard or with none; `None` if the
/// deadline, this many seconds, is over. What the guard has accepted is told in each case. Out of memory is reported before anything is
/// sent, or as a fault of the poll itself.
#[inline(never)]
fn poll_over<T: Timer, S: End>(
    alloc: Global,
    line: &mut S,
    timer: &mut T,
    seconds: u32,
    route: Route,
    terms: PollTerms,
    guard: Option<Box<Guard>>,
    accepted: &mut Accepted,
) -> Result<Option<PollEnd>, RunFault>
    requires route { IsRoute route }
    requires after { AreSeconds terms.after terms.until }
    ensures does { DoesOver route (terms_of terms) (option_map (λ kept. kept.value) guard) seconds
        (S.past line.old) (S.past line.new) (T.seen timer.old) (T.seen timer.new) accepted.new
        result }
    ensures done { IfOk result (λ done. IfSome done
        (IsPolledOver route (terms_of terms) (option_map (λ kept. kept.value) guard))) }
{
    *accepted = Accepted::nothing();
    let mut poll = match PollEnd::new(alloc, route, terms, guard) {
        Ok(poll) => poll,
        Err(fault) => return Err(fault),
    };
    let mut oldest = None;
    let told = poll_until(line, timer, seconds, &mut poll, &mut oldest);
    *accepted = Accepted::by(oldest, &poll);
    match told {
        Ok(true) => Ok(Some(poll)),
        Ok(false) => Ok(None),
        Err(fault) => Err(fault),
    }
}

/// Does a poll over this route, by these terms, in clear, over a line whose other end is the meter; `None` if the deadline, this many
/// seconds, is over.
pub fn poll_in_clear<T: Timer, S: End>(
    alloc: Global,
    line: &mut S,
    timer: &mut T,
    seconds: u32,
    route: Route,
    terms: PollTerms,
) -> Result<Option<PollEnd>, RunFault>
    requires route { IsRoute route }
    requires after { AreSeconds terms.after terms.until }
    ensures does { DoesRouted route (terms_of terms) seconds (S.past line.old) (S.past line.new)
        (T.seen timer.old) (T.seen timer.new) result }
    ensures done { IfOk result (λ done. IfSome done (IsPolledOver route (terms_of terms) None)) }
{
    let mut accepted = Accepted::nothing();
    poll_over(
        alloc,
        line,
        timer,
        seconds,
        route,
        terms,
        None,
        &mut accepted,
    )
}

/// The outcome of a poll, after what its guard has accepted was kept, or refused.
fn kept_so(
    told: Result<Option<PollEnd>, RunFault>,
    kept: Result<(), RunFault>,
) -> Result<Option<PollEnd>, RunFault>
    ensures { result ≡ kept_so told (error_in kept) }
{
    match told {
        Err(fault) => Err(fault),
        Ok(found) => match kept {
            Ok(()) => Ok(found),
            Err(fault) => {
                drop(found);
                Err(fault)
            }
        },
    }
}

/// Does a poll over this route, by these terms, in an association that a new guard protects, over a line whose other end is the meter;
/// `None` if the deadline, this many seconds, is over. Whatever the outcome, the meter's last counter is kept; a poll that is done is
/// refused if the meter's first message is not newer than all of earlier associations.
#[inline(never)]
pub fn poll_secured<T: Timer, S: End, G: Guards>(
    alloc: Global,
    line: &mut S,
    timer: &mut T,
    guards: &mut G,
    seconds: u32,
    route: Route,
    terms: PollTerms,
) -> Result<Option<PollEnd>, RunFault>
    requires route { IsRoute route }
    requires after { AreSeconds terms.after terms.until }
    ensures does { DoesSecured route (terms_of terms) seconds (S.past line.old) (S.past line.new)
        (T.seen timer.old) (T.seen timer.new) (G.given guards.old) (G.given guards.new) result }
    ensures done { IfOk result (λ done. IfSome done (IsPolledSecured route (terms_of terms))) }
{
    let guard = match guards.guard() {
        Ok(guard) => guard,
        Err(fault) => return Err(fault),
    };
    let mut accepted = Accepted::nothing();
    let told = poll_over(
        alloc,
        line,
        timer,
        seconds,
        route,
        terms,
        Some(guard),
        &mut accepted,
    );
    let kept = guards.keep(accepted);
    kept_so(told, kept)
}
