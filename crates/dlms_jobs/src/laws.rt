//! What is true of every poll that runs as a job. No program needs to call these functions: their contracts are the laws.

ghost use Rattle.dlms_jobs.specs.Polled.{DoneInABoxIsAPoll, DoneIsAPoll, DoneOnASeatIsAPoll};

/// Whatever its inputs: a job that is done polled its meter over this route, by these terms, with this guard.
pub fn done_is_a_poll()
    ensures { DoneIsAPoll }
{}

/// The same of a job that was started on a seat of a fleet, and that the seat handed back as done, whatever happened on the others.
pub fn done_on_a_seat_is_a_poll()
    ensures job { DoneOnASeatIsAPoll }
    ensures boxed { DoneInABoxIsAPoll }
{}
