//! A meter that serves talks with a client, from a connection's beginning to its end.

ghost use Rattle.std.specs.Prelude.{◌≡◌, ◌≤◌, ◌↔◌, ℕ, List, [], Some, None, false, IfOk, IsTrue};
ghost use Rattle.dlms_serving.specs.declared.carrier.Carrier.TheVariants as CarrierOf;
ghost use Rattle.dlms_wrapper.specs.declared.message.TheConstants.{MOST_APDU};
ghost use Rattle.dlms_serving.specs.Connection.{AnswersEach, AsksOnce, At, ChecksOnce, Connection, Counts, GivesFrame, GivesOrEnds, IsDue, IsOfRead, LooksOnce, ReadsPiece, TellsOnce, behind_answer, ending_at_reply, turn_after_bytes, log, timed};

use crate::carrier::Carrier;
use crate::log::Log;
use crate::pace::due;
use crate::refusals::outcome_in;
use crate::telling;
use crate::ticks::Ticks;
use crate::turns::{Over, Times, Tries, Turn, behind_outcome};
use crate::watch::Watch;
use crate::wrapped::{deliver, is_bad};
use dlms_ends::{End, Heard, PIECE, RunFault, Taken, bytes_of};
use dlms_filing::bytes_behind;
use dlms_meter::Meter;
use dlms_pages::Pages;
use dlms_store::AddFault;
use dlms_wrapper::{MOST_APDU, MessageReader};
use std::alloc::Global;
use std::io;
use std::io::{ErrorKind, Write};

/// By which rules a meter serves.
#[derive(Clone, Copy)]
pub struct Rules {
    /// The meter gets the seconds of the clock in steps of this many.
    pub tick: u32,
    /// After how many seconds a connection's turn is over.
    pub times: Times,
    /// Behind so many refused association requests it is over.
    pub refusals: u8,
    /// What brings the APDUs of a connection.
    pub carrier: Carrier,
}

/// How a connection ended.
#[derive(Clone, Copy)]
pub enum Ending {
    /// The client closed it.
    Closed,
    /// Its turn was over.
    Over(Over),
    /// The header of its next message is refused, or the message has no octets (IEC 62056-47).
    BadMessage,
    /// The system's call failed.
    Failed(io::Error),
}

/// A connection's turn, the second in which it was asked last whether another connection waits, and what is kept of a message
/// that has begun.
#[derive(Drop)]
pub struct TurnState {
    turn: Turn,
    asked: Option<u64>,
    reader: MessageReader,
}

/// What a meter is served with: the world besides the line, the seconds of the clock that the meter got, and where events are
/// reported.
#[derive(Drop)]
pub struct Server<'e, W: Watch + Drop, E: Write> {
    pub watch: W,
    pub ticks: Ticks,
    /// Whether the last second was refused.
    refused: bool,
    /// Whether the port gave an error that passes, and no connection since.
    pub stumbled: bool,
    pub log: Log<Global>,
    pub errors: &'e mut E,
}

/// Reads once: the number of bytes that came, or `None` if nothing came.
fn read_piece<T: End>(stream: &mut T, piece: &mut [u8; PIECE]) -> io::Result<usize>
    ensures fits { IfOk result (λ count. count ≤ PIECE) }
    ensures reads { ReadsPiece (T.past stream.old) (T.past stream.new) result piece.new }
{
    match stream.hear(piece)? {
        Heard::Bytes(count) => Ok(count),
        Heard::Silence => Ok(0),
    }
}

/// Counts what a reply says of an association that was asked for.
fn count_outcome(reply: &[u8], tries: Tries) -> Tries
    ensures { Counts CarrierOf.Hdlc (Some reply.now) tries result }
{
    behind_outcome(outcome_in(reply), tries)
}

/// Gives the meter bytes through one frame at most, counts what the reply says of an association, and puts it. Where that
/// cannot be put the meter has taken the frame all the same.
fn answer<T: End, P: Pages>(
    end: &mut T,
    meter: &mut Meter<P>,
    bytes: &[u8],
    state: &mut TurnState,
) -> io::Result<Taken>
    ensures { GivesFrame CarrierOf.Hdlc (T.past end.old)
        (T.past end.new) meter.old bytes.now state.old state.new result meter.new }
{
    let (count, reply) = meter.feed(bytes);
    match reply {
        Some(reply) => {
            state.turn.tries = count_outcome(reply.as_slice(), state.turn.tries);
            end.put(reply.as_slice())?;
            Ok(Taken {
                count,
                is_answered: true,
            })
        }
        None => Ok(Taken {
            count,
            is_answered: false,
        }),
    }
}

/// Reads bytes through one message at most, gives it to the meter, counts what the answer says of an association, and puts it.
fn answer_message<T: End, P: Pages>(
    end: &mut T,
    meter: &mut Meter<P>,
    bytes: &[u8],
    state: &mut TurnState,
) -> Result<Taken, Ending>
    ensures { GivesOrEnds CarrierOf.Wrapper (T.past end.old)
        (T.past end.new) meter.old bytes.now state.old state.new result meter.new }
{
    let is_refused = state.reader.fault().is_some();
    let count = state.reader.feed(bytes);
    if is_refused {
        return Err(Ending::BadMessage);
    }
    if is_bad(&state.reader) {
        return Err(Ending::BadMessage);
    }
    match deliver(meter, &state.reader, &mut state.turn.tries) {
        Some(reply) => match end.put(reply.as_slice()) {
            Ok(()) => Ok(Taken {
                count,
                is_answered: true,
            }),
            Err(error) => Err(ending_at_reply(state.turn.tries, error)),
        },
        None => Ok(Taken {
            count,
            is_answered: false,
        }),
    }
}

/// The same by either carrier.
fn answer_by<T: End, P: Pages>(
    carrier: Carrier,
    end: &mut T,
    meter: &mut Meter<P>,
    bytes: &[u8],
    state: &mut TurnState,
) -> Result<Taken, Ending>
    ensures { GivesOrEnds carrier (T.past end.old)
        (T.past end.new) meter.old bytes.now state.old state.new result meter.new }
{
    match carrier {
        Carrier::Hdlc => match answer(end, meter, bytes, state) {
            Ok(taken) => Ok(taken),
            Err(error) => Err(ending_at_reply(state.turn.tries, error)),
        },
        Carrier::Wrapper => answer_message(end, meter, bytes, state),
    }
}

/// The end that an error of a read is.
fn ending_of(error: io::Error) -> Ending
    ensures { IsOfRead error result }
{
    if error.kind() == ErrorKind::UnexpectedEof {
        Ending::Closed
    } else {
        Ending::Failed(error)
    }
}

/// The end that an error at a reply is: whose association request is refused need not take the reply for that to count.
fn ending_at_reply(tries: Tries, error: io::Error) -> Ending
    ensures { result ≡ ending_at_reply tries error }
{
    if tries.refusals > 0 {
        Ending::Over(Over::Refused)
    } else {
        Ending::Failed(error)
    }
}

impl TurnState {
    /// The turn of a connection that begins at this second.
    fn begins(now: u64) -> TurnState
        ensures { result ≡ record {
          turn = record {
            answered = now;
            held = now;
            waited = None;
            tries = record { refusals = 0; is_proved = false };
          };
          asked = None;
          reader = record { limit = MOST_APDU; bytes = []; message = None };
        } }
    {
        TurnState {
            turn: Turn::begins(now),
            asked: None,
            reader: MessageReader::new(MOST_APDU),
        }
    }

    /// Whether it is to be asked at this second whether another connection waits.
    fn is_due(&self, now: u64) -> bool
        ensures { IsTrue result ↔ IsDue self.now now }
    {
        self.turn.waited.is_none() && self.asked != Some(now)
    }

    /// Tells once of a secret that was proved.
    fn tells<W: Watch>(&mut self, watch: &mut W, now: u64)
        ensures { TellsOnce (W.seen watch.old) (W.seen watch.new) self.old now self.new }
    {
        let is_proved = self.turn.tries.is_proved;
        if !is_proved {
            return;
        }
        watch.trust(now);
        self.turn.tries.is_proved = false;
    }

    /// Asks once in each second whether another connection waits, unless one is known to.
    fn asks<W: Watch>(&mut self, watch: &mut W, now: u64)
        ensures asks { AsksOnce (W.seen watch.old) (W.seen watch.new) self.old now self.new }
        ensures reader { self.new.reader ≡ self.old.reader }
    {
        let is_due = self.is_due(now);
        self.asked = Some(now);
        if !is_due {
            return;
        }
        let waits = watch.another_waits(now);
        self.turn = behind_answer(self.turn, now, waits);
    }
}

/// The turn after bytes that were answered at this second, or were not, and whether an association was then open.
fn turn_after_bytes(turn: Turn, is_answered: bool, now: u64, is_associated: bool) -> Turn
    ensures { result ≡ turn_after_bytes turn is_answered now is_associated }
{
    if is_answered {
        turn.answers(now, is_associated)
    } else {
        turn
    }
}

/// The turn after the answer whether another connection waits.
fn behind_answer(turn: Turn, now: u64, waits: bool) -> Turn
    ensures { result ≡ behind_answer turn now waits }
{
    if waits {
        Turn {
            waited: Some(now),
            ..turn
        }
    } else {
        turn
    }
}

impl<'e, W: Watch + Drop, E: Write> Server<'e, W, E> {
    /// A meter that got this much of the clock, before anything is reported.
    #[inline(never)]
    pub fn new(watch: W, ticks: Ticks, log: Log<Global>, errors: &'e mut E) -> Self
        ensures { result.ticks ≡ ticks }
    {
        Server {
            watch,
            ticks,
            refused: false,
            stumbled: false,
            log,
            errors,
        }
    }

    /// Tells that a second was refused, once until one is taken again.
    fn tell_refused(&mut self, number: u8)
        ensures ticks { self.new.ticks ≡ self.old.ticks }
        ensures watch { self.new.watch ≡ self.old.watch }
    {
        let is_new = !self.refused;
        self.refused = true;
        if is_new && self.log.takes_line(self.errors) {
            let _said = writeln!(self.errors, "refused {number}");
        }
    }

    /// Looks at the clock, and tells the meter of the seconds that are due, so many at most. The seconds of the clock since the
    /// beginning come back. A moment that is refused is said once, until one is taken again.
    pub fn look<P: Pages>(&mut self, step: u32, meter: &mut Meter<P>) -> Result<u64, RunFault>
        ensures { LooksOnce step (W.seen self.old.watch) (W.seen self.new.watch)
            (timed meter.old self.old.ticks) result (timed meter.new self.new.ticks) }
    {
        let now = self.watch.seconds()?;
        let told = self.ticks.told;
        match telling::look(meter, &mut self.ticks, due(now, step)) {
            Ok(()) => self.refused = self.refused && self.ticks.told == told,
            Err(AddFault::Refused(cause)) => self.tell_refused(cause.number()),
            Err(AddFault::Exhausted) => return Err(RunFault::Add(AddFault::Exhausted)),
            Err(AddFault::Device) => return Err(RunFault::Add(AddFault::Device)),
            Err(AddFault::Stopped) => return Err(RunFault::Add(AddFault::Device)),
        }
        Ok(now)
    }

    /// Looks at the clock, after bytes that were answered or were not, and returns whether the turn is over at that second, and
    /// why.
    fn check<P: Pages>(
        &mut self,
        rules: Rules,
        meter: &mut Meter<P>,
        state: &mut TurnState,
        is_answered: bool,
    ) -> Result<Option<Over>, RunFault>
        ensures { (left : List ℕ) (reads : ℕ)
            → ChecksOnce rules (W.seen self.old.watch) (W.seen self.new.watch)
            (record {
              meter = meter.old;
              ticks = self.old.ticks;
              left = left;
              state = state.old;
              reads = reads;
            }) is_answered result
            (record {
              meter = meter.new;
              ticks = self.new.ticks;
              left = left;
              state = state.new;
              reads = reads;
            }) }
    {
        let now = match self.look(rules.tick, meter) {
            Ok(now) => now,
            Err(fault) => return Err(fault),
        };
        state.turn = turn_after_bytes(state.turn, is_answered, now, meter.is_associated());
        state.tells(&mut self.watch, now);
        state.asks(&mut self.watch, now);
        Ok(state.turn.over(rules, now))
    }

    /// Answers the frames among the bytes, one after another, as long as the turn is not over. Behind each it looks at the clock.
    fn answer_each<T: End, P: Pages>(
        &mut self,
        rules: Rules,
        meter: &mut Meter<P>,
        stream: &mut T,
        state: &mut TurnState,
        bytes: &[u8],
    ) -> Result<Option<Ending>, RunFault>
        ensures { (reads : ℕ) → AnswersEach rules (log (T.past stream.old) (W.seen self.old.watch))
            (log (T.past stream.new) (W.seen self.new.watch)) (record {
              meter = meter.old;
              ticks = self.old.ticks;
              left = bytes.now;
              state = state.old;
              reads = reads;
            }) result (timed meter.new self.new.ticks) state.new }
    {
        let mut rest = bytes;
        while !rest.is_empty() {
            let taken = match answer_by(rules.carrier, stream, meter, rest, state) {
                Ok(taken) => taken,
                Err(ending) => return Ok(Some(ending)),
            };
            rest = bytes_behind(rest, taken.count);
            match self.check(rules, meter, state, taken.is_answered) {
                Ok(None) => {}
                Ok(Some(over)) => return Ok(Some(Ending::Over(over))),
                Err(fault) => return Err(fault),
            }
        }
        Ok(None)
    }

    /// Answers a client until the connection ends. Before each read, which gives up after a second, and after each frame it looks
    /// at the clock, and asks once in each of its seconds whether another connection waits.
    pub fn talk<T: End, P: Pages>(
        &mut self,
        rules: Rules,
        meter: &mut Meter<P>,
        stream: &mut T,
    ) -> Result<Ending, RunFault>
        ensures { Connection rules (log (T.past stream.old) (W.seen self.old.watch))
            (log (T.past stream.new) (W.seen self.new.watch))
            (timed meter.old self.old.ticks) result (timed meter.new self.new.ticks) }
    {
        let mut piece = [0u8; PIECE];
        let first = match self.look(rules.tick, meter) {
            Ok(first) => first,
            Err(fault) => return Err(fault),
        };
        let mut state = TurnState::begins(first);
        'rounds: for _round in 0..u64::MAX {
            match self.check(rules, meter, &mut state, false) {
                Ok(None) => {}
                Ok(Some(over)) => return Ok(Ending::Over(over)),
                Err(fault) => return Err(fault),
            }
            let count = match read_piece(stream, &mut piece) {
                Ok(count) => count,
                Err(error) => return Ok(ending_of(error)),
            };
            let bytes = bytes_of(&piece, count);
            match self.answer_each(rules, meter, stream, &mut state, bytes) {
                Ok(None) => {}
                Ok(Some(ending)) => return Ok(ending),
                Err(fault) => return Err(fault),
            }
        }
        Err(RunFault::Io)
    }
}
