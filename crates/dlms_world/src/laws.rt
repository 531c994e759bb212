//! Laws over whole runs of the world. They call nothing, but for what one of them needs to know of the
//! clock's seconds.

ghost use Rattle.std.specs.Prelude.{◌≡◌, ◌≤◌, ◌<◌, ◌^◌, List, ℕ, All, None};
ghost use Rattle.dlms_data.specs.declared.date_time.TheConstants.{LAST_SECOND};
ghost use Rattle.dlms_headend.specs.Asking.{AreSeconds};
ghost use Rattle.dlms_data.specs.Building.{IsTime};
ghost use Rattle.dlms_data.specs.Value.{Value};
ghost use Rattle.dlms_link.specs.Server.{ServerRecord};
ghost use Rattle.dlms_link.specs.declared.out.LinkOut.{LinkOut};
ghost use Rattle.dlms_meter.specs.Run.{Answered, Choice};
ghost use Rattle.dlms_service.specs.Session.{SessionValue, Outcome};
ghost use Rattle.dlms_state.specs.declared.event.Event.{Event};
ghost use Rattle.dlms_state.specs.Refusal.{IsLegal};
ghost use Rattle.dlms_world.specs.World.{rows_from, all_rows_from};
ghost use Rattle.dlms_world.specs.Turn.{Answers, handled};
ghost use Rattle.dlms_world.specs.Named.{PollsAreNamed};
ghost use Rattle.dlms_world.specs.Between.{ReadingsAreNamed, StillUnset, StillApart};
ghost use Rattle.dlms_world.specs.Told.{AnswersTell};
ghost use Rattle.dlms_world.specs.PollTurns.{NewIsFirst, NewIsTurn, MergeIsTurn, NextIsTurn, OnIsTurn, TimeoutIsTurn};
ghost use Rattle.dlms_world.specs.Programs.{FilesAreCaptures};
ghost use Rattle.dlms_world.specs.Line.{FirstAgree, AgreeingIsCaptures, RunsAgree, StopsAgree, PollsAgree};
ghost use Rattle.dlms_world.specs.Carrier.{AgreeingHolds, CanBeCarried, FirstHolds, HeldAreCaptures, LinesHold, LivesHold, PollsHold, StopsHold};
ghost use Rattle.dlms_carrier.specs.Carrying.{meaning};
ghost use Rattle.dlms_world.specs.MeterTurns.{FeedsAreTurns, EventsAreTurns, StopsAreTurns, RecoveriesAreTurns, RestsAreTurns};
ghost use Rattle.dlms_world.specs.Agree.{PollsAreTold, ReadingsAreCaptures, ReadingsRise, LineIsSilent};
ghost use Rattle.dlms_world.specs.Possible.{CanBegin, CanBeDone, CanBeDoneAgain, CanStop};

use dlms_carrier::Carrier;
use dlms_data::{LAST_SECOND, octets};
use dlms_meter::Meter;
use dlms_pages::Pages;
use std::alloc::Allocator;

/// However frames, losses, timeouts, pulses, moments, other clients, stops and recoveries interleave: a poll that is done has
/// exactly the rows that the meter's buffer had when it took the poll's GET; each row of the readings is a capture of the events
/// that the meter holds; and if the captures' clocks rise strictly, no row occurs twice and the rows are in order.
pub fn the_file_and_the_meter_agree()
    ensures told { PollsAreTold }
    ensures captures { ReadingsAreCaptures }
    ensures rise { ReadingsRise }
{}

/// For a poll that is done and asks for the columns, the meter's columns were the clock and the three registers both before and
/// after its GET of the rows. If they were at that GET too, each row is a capture by name: in the place of a register is what that
/// register held.
pub fn polls_are_named()
    ensures { PollsAreNamed }
{}

/// Where each poll asks for the columns, and no columns are set between the two answers of one poll, each row of the readings is a
/// capture of the events that the meter holds, by name: in the place of a register stands what that register held. Columns may be
/// set anywhere else in the run.
pub fn the_file_is_named()
    ensures { ReadingsAreNamed }
{}

/// When no columns are set between the answers of a poll: in a run that sets none, and in one that continues with any step after
/// which no poll is under way.
pub fn columns_stand_still()
    ensures unset { StillUnset }
    ensures apart { StillApart }
{}

/// The answers to a whole poll, served in turn from a link that has just come up, tell the buffer's rows at its GET.
pub fn answers_tell_rows()
    ensures { AnswersTell }
{}

/// No row of a legal list is past the clock's last second: the rows of the poll's range are all rows from its first second on.
pub fn a_range_to_the_last_second_has_all_rows()
    ensures { (second : ℕ) (E : List Event) → IsLegal E
        → rows_from second LAST_SECOND E ≡ all_rows_from second None E }
{}

/// The meter of this world handles a frame as the meter's own definition says.
pub fn frames_are_handled()
    ensures { (choice : Choice) (E : List Event) (r : ServerRecord) (s : SessionValue)
        (out : LinkOut) (o : Outcome) → Answers choice E r s out o
        → Answered choice E r s out (handled r out o) }
{}

/// Once a poll is done or has failed nothing is on the line.
pub fn the_line_is_silent_behind_a_poll()
    ensures { LineIsSilent }
{}

/// A head end may be stopped at any moment, at any stage of its poll, and another one takes its place, for the same client or for
/// another: the file, the meter's record of each client, and its events stay as they were. The laws of every run also apply to
/// those that continue from there.
pub fn a_head_end_can_stop()
    ensures { CanStop }
{}

/// The first two steps of a poll can be taken.
pub fn a_poll_can_begin()
    ensures { CanBegin }
{}

/// A poll can be done, of each client that has a secret, between whatever seconds of the clock it asks, with the columns and without:
/// at a formatted meter that has captured its first row, with that row; and wherever a run has come to, with all rows that are due
/// then, in as many segments and blocks as they take. That row can also be brought over a carrier of whole APDUs.
pub fn a_poll_can_be_done(after: Option<u32>, until: Option<u32>)
    requires { AreSeconds after until }
    ensures first { CanBeDone after until }
    ensures again { CanBeDoneAgain after until }
    ensures carried { CanBeCarried after until }
{
    seconds_have_times(900);
    seconds_have_times(after.unwrap_or(0));
    seconds_have_times(until.unwrap_or(LAST_SECOND));
}

/// Each second of the clock has a date-time.
pub fn seconds_have_times(second: u32)
    requires { second ≤ LAST_SECOND }
    ensures { (time : Value) × IsTime second time }
{
    let octets = octets(second);
    bytes_fit(octets.as_slice());
}

/// Says what the type of bytes says, for a proof.
fn bytes_fit(bytes: &[u8])
    ensures { All (λ octet. octet < 2 ^ 8) bytes.now }
{
    let _bytes = bytes;
}

/// The calls of a poller are steps of the world: a new one, for any client, is that of the first world, or of one after any poll
/// while nothing is on the line; so are the call that returns its first frame, one that is given the oldest frame on the way, one
/// that reports a timeout while nothing is on the line, and a merge of rows of a poll that is done, all or some of them in their
/// order.
pub fn calls_are_turns()
    ensures new { NewIsFirst }
    ensures again { NewIsTurn }
    ensures next { NextIsTurn }
    ensures on { OnIsTurn }
    ensures timeout { TimeoutIsTurn }
    ensures merge { MergeIsTurn }
{}

/// The calls of a meter are steps of the world, whatever its device does. The bytes of a call of `feed` end no frame, and nothing
/// is replied; or they end the next frame of the stretch. If that is the oldest on the way from the poller, its reply is the frame
/// that goes onto the line; one of another client leaves the poller's line as it is; and one of no client is no step. A call of
/// `pulses` or `moment` is a step if it accepted the event, or if the device failed, and otherwise none. A stop at any moment of
/// such a call leaves what represents the events of a step.
pub fn calls_of_a_meter_are_turns<P: Pages, A: Allocator + Copy>(
    old: &Meter<P, A>,
    new: &Meter<P, A>,
)
    ensures feed { FeedsAreTurns old.now new.now }
    ensures events { EventsAreTurns old.now new.now }
    ensures stops { StopsAreTurns old.now new.now }
{}

/// Recoveries and closes are steps, too: the meter that a recovery makes is that of the world after it, and a device that a
/// recovery or a close returns fits the world's memory.
pub fn recoveries_are_turns<P: Pages, A: Allocator + Copy>(new: &Meter<P, A>)
    ensures opens { RecoveriesAreTurns new.now }
    ensures rests { RestsAreTurns new.now }
{}

/// Any program that makes these calls, on one meter, one line and one readings file, in whatever order, is a run of the world: each
/// row of its file is a capture of the events that its meter holds, wherever the power stopped, inside calls and recoveries too.
pub fn programs_are_runs<P: Pages, A: Allocator + Copy>(meter: &Meter<P, A>)
    ensures { FilesAreCaptures meter.now }
{}

/// A readings file and a meter agree if a run of the world has led to both. This is true of an empty file and a formatted meter,
/// and each row of such a file is a capture that the meter holds. They go on agreeing whatever arrives at the meter, wherever the
/// power stops, and after a merge of rows from a poll over a line. The head end and the meter are two ends of that line, each by
/// its own calls; the line may lose, cut and delay anything, as long as each whole frame that arrives was sent from the other end,
/// since the last timeout, and frames arrive in order.
pub fn a_poll_over_a_line<P: Pages, A: Allocator + Copy>(old: &Meter<P, A>, new: &Meter<P, A>)
    ensures first { FirstAgree }
    ensures captures { AgreeingIsCaptures }
    ensures runs { RunsAgree old.now new.now }
    ensures stops { StopsAgree }
    ensures polls { PollsAgree old.now new.now }
{}

/// A meter holds the rows of a file if they are captures that no stop of the power takes back. This is true of an empty file and a
/// formatted meter, and of a file and a meter that agree (`a_poll_over_a_line`). It stays true whatever arrives at the meter, from
/// any client and over any carrier, and wherever the power stops; and after a merge of rows from a poll over a line. So polls over
/// lines and over carriers (`a_poll_over_a_carrier`) can be filed in one file.
pub fn a_meter_holds_a_file<P: Pages, A: Allocator + Copy>(old: &Meter<P, A>, new: &Meter<P, A>)
    ensures first { FirstHolds }
    ensures agreeing { AgreeingHolds }
    ensures captures { HeldAreCaptures }
    ensures lives { LivesHold }
    ensures stops { StopsHold }
    ensures lines { LinesHold old.now new.now }
{}

/// What `a_poll_over_a_line` states of HDLC, over a carrier of whole APDUs, such as the TCP wrapper. The poll and the meter are the
/// two ends of the carrier. It may lose and delay APDUs, as long as each that arrives was sent from the other end, and APDUs arrive
/// in order, each at most once. If the poll is done, it has exactly the rows that the meter's buffer had when it took the poll's GET;
/// and if rows of it are merged into a file whose rows the meter held, the meter holds the rows of the new file.
pub fn a_poll_over_a_carrier<C: Carrier, P: Pages, A: Allocator + Copy>(meter: &Meter<P, A>)
    ensures { PollsHold (meaning C.steps C.out_of C.apdu_of C.is_waiting) meter.now }
{}
