//! What is true of every poll that runs beside requests, and of clocks that are corrected. No program needs to call these functions:
//! their contracts are the laws.

ghost use Rattle.dlms_inquiries.specs.Clocks.{SetsRight, ShiftsRight};
ghost use Rattle.dlms_inquiries.specs.MeterJobs.{DoneIsAPoll};

use dlms_jobs::laws;

/// A new poll that was started on a seat of a fleet of meters' jobs, and that the seat handed back as done, has the number that it was
/// started with, and polled its meter, whatever happened on the others.
pub fn done_is_a_poll()
    ensures { DoneIsAPoll }
{
    laws::done_is_a_poll();
}

/// A clock that is corrected is right: once it is shifted it is neither ahead nor behind, and once it is set it names the second of UTC
/// that it was to be set to, in its own zone.
pub fn corrected_clocks_are_right()
    ensures shifted { ShiftsRight }
    ensures set { SetsRight }
{}
