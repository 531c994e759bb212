//! What holds of every poll. Nobody needs to call these functions: their contracts are the laws.

ghost use Rattle.std.specs.Prelude.{◌≡◌, List, ℕ};
ghost use Rattle.dlms_headend.specs.declared.plan.Columns.{Columns};
ghost use Rattle.dlms_headend.specs.declared.row.Row.{Row};
ghost use Rattle.dlms_headend.specs.Poll.{HasPolled};
ghost use Rattle.dlms_headend.specs.PollRun.{CallsAreAPoll, DoneIsTold};
ghost use Rattle.dlms_headend.specs.Asking.{PlanValue};
ghost use Rattle.dlms_headend.specs.CarrierRun.{PollsLead};
ghost use Rattle.dlms_carrier.specs.Carrying.{meaning};
ghost use Rattle.dlms_headend.specs.Due.{AsksTheSame};
ghost use Rattle.dlms_headend.specs.declared.answer.TheConstants.{EXCEPTION};

use dlms_carrier::Carrier;

/// The APDUs that a poll took tell its rows, whatever came after them.
pub fn rows_are_told()
    ensures { (columns : Columns) (apdus : List (List ℕ)) (rows more : List Row)
        → HasPolled columns apdus rows → HasPolled columns apdus more → rows ≡ more }
{}

/// The calls of a poller, from a new one on, in any order and with any frames, are a poll. It is done exactly if its link goes down
/// after an acceptance, answers that spell the rows, and the answer to the release; and it has those rows. If its plan asks for the
/// columns, an answer with them came before the rows, and another one after them.
pub fn calls_are_a_poll()
    ensures run { CallsAreAPoll }
    ensures done { DoneIsTold }
{}

/// The calls of a poll over a carrier, from a new one on and in any order, are a run of its carrier. In it requests and answers pass in
/// turn: each request is what the poll asks once it took the answers before it. If the poll is done, these begin with an acceptance
/// and answers that spell its rows; if its terms ask for the columns, an answer with them came before the rows, and another one after
/// them. The answer to the release may be missing.
pub fn polls_lead<C: Carrier>()
    ensures { PollsLead (meaning C.steps C.out_of C.apdu_of C.is_waiting) }
{}

/// A poll over the client's link asks the same as a poll over any carrier.
pub fn requests_are_the_same()
    ensures { (plan : PlanValue) → AsksTheSame plan }
{}

/// The number that clauses cite by name for an exception response.
pub fn the_numbers()
    ensures { EXCEPTION ≡ 250 }
{}
