//! The loop: what happens on a line is passed to the job on its seat, and what the job does is done on that line.
ghost use Rattle.std.specs.Prelude.{◌≡◌};
ghost use Rattle.dlms_fleet.specs.Acts.{Adds, TakesAll, TakesOne, acts_by, moment_at};
ghost use Rattle.dlms_fleet.specs.RunningJob.{moment_of};

use crate::fleet::{Fleet, FleetStep};
use crate::job::Job;
use crate::running::{Moment, Outcome};
use std::alloc::Allocator;

/// The most bytes of one read.
pub const PIECE: usize = 2_048;

/// What happened on a line.
#[derive(Clone, Copy)]
pub enum LineEvent {
    Connected,
    /// This many bytes arrived.
    Bytes(usize),
    /// It is closed, or failed.
    Lost,
    /// A tick of the clock.
    Tick,
}

/// What happened on the line of a seat.
#[derive(Clone, Copy)]
pub struct SeatEvent {
    pub number: usize,
    pub event: LineEvent,
}

/// The lines of the seats.
pub trait Lines<T: Job> {
    ghost use Rattle.std.specs.Prelude.{List, Option, None, [], ◌∷◌};
    ghost use Rattle.dlms_fleet.specs.Acts.{Act, Adds, seen};
    ghost use Rattle.dlms_fleet.specs.Acts.Act.{Closed, Sent};

    /// What happened and was done there, in order, if that is known. For real lines it is not; a theorem about code that takes any lines
    /// is true of lines whose past is known.
    ghost past: { Self → Option (List (Act T T.Message T.Fault)) } = { λ _. None };

    /// What happens next, with bytes that arrived in `piece`; none if nothing more happens.
    fn next(&mut self, piece: &mut [u8; PIECE]) -> Option<SeatEvent>
        ensures { Adds (past self.old) (past self.new) (seen result piece.new) };

    /// Sends a message on the line of a seat.
    fn send(&mut self, number: usize, message: T::Message)
        ensures { Adds (past self.old) (past self.new) (Sent number message ∷ []) };

    /// The job on a seat ended: its line is closed, and its result is kept.
    fn close(&mut self, number: usize, outcome: Outcome<T::Fault>, job: T)
        ensures { Adds (past self.old) (past self.new) (Closed number outcome job ∷ []) };
}

/// The moment of an event, with the bytes that arrived.
fn moment_at<'p>(event: LineEvent, piece: &'p [u8; PIECE]) -> Moment<'p>
    ensures { moment_of result ≡ moment_at event piece.now }
{
    match event {
        LineEvent::Connected => Moment::Connected,
        LineEvent::Bytes(count) => Moment::Bytes(piece.get(..count).unwrap_or(piece)),
        LineEvent::Lost => Moment::Lost,
        LineEvent::Tick => Moment::Tick,
    }
}

/// Does on the line of a seat what its job does.
fn act<T: Job, L: Lines<T>>(lines: &mut L, number: usize, step: FleetStep<T, T::Message, T::Fault>)
    ensures { Adds (L.past lines.old) (L.past lines.new) (acts_by number step) }
{
    match step {
        FleetStep::Nothing => {}
        FleetStep::Sends(message) => lines.send(number, message),
        FleetStep::Ends(outcome, job) => lines.close(number, outcome, job),
    }
}

/// Passes what happens next to the job on its seat, and does what the job does. Returns whether anything happened; if not, no line has
/// anything more.
pub fn take_one<T: Job + Drop, L: Lines<T>, A: Allocator>(
    fleet: &mut Fleet<T, A>,
    lines: &mut L,
    piece: &mut [u8; PIECE],
) -> bool
    ensures { TakesOne T.steps (L.past lines.old) (L.past lines.new) fleet.old result fleet.new }
{
    match lines.next(piece) {
        Some(next) => {
            let step = fleet.on(next.number, moment_at(next.event, piece));
            act(lines, next.number, step);
            true
        }
        None => false,
    }
}

/// Takes what happens, one after another, until nothing more happens; at most this many.
pub fn take_all<T: Job + Drop, L: Lines<T>, A: Allocator>(
    fleet: &mut Fleet<T, A>,
    lines: &mut L,
    most: u64,
)
    ensures { TakesAll T.steps most (L.past lines.old) (L.past lines.new) fleet.old fleet.new }
{
    let mut piece = [0u8; PIECE];
    for _taken in 0..most {
        if !take_one(fleet, lines, &mut piece) {
            return;
        }
    }
}
