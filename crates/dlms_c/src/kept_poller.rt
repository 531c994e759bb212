//! A poller, and the frames that it finds in octets.
ghost use Rattle.dlms_headend.specs.Asking.{AreSeconds};
ghost use Rattle.std.specs.Prelude.{◌≡◌, ◌≤◌, ℕ, List, None, Some, IfNone, IfSome, IsSome, length, take};
ghost use Rattle.dlms_frame.specs.Frame.{Parts};
ghost use Rattle.dlms_frame.specs.Stream.{Takes};
ghost use Rattle.dlms_headend.specs.PollerValue.{plan_of as value_of};
ghost use Rattle.dlms_headend.specs.Polling.{CanTimeOut, Fits, TimesOut};
ghost use Rattle.dlms_c.specs.Poll.{IsFresh, PollsFrame};

use dlms_frame::{Deframer, SentFrame};
use dlms_headend::{Plan, PollFault, PollStep, Poller};
use std::alloc::Global;

/// A poller, and the stretch of octets in which its meter's frames are found.
#[derive(Drop)]
pub struct KeptPoller {
    pub poller: Poller<Global>,
    pub deframer: Deframer,
}

impl KeptPoller {
    /// The poll of this plan, not begun.
    pub fn new(alloc: Global, plan: Plan) -> KeptPoller
        requires { AreSeconds plan.after plan.until }
        ensures { IsFresh (value_of plan) result }
    {
        KeptPoller {
            poller: Poller::new(alloc, plan),
            deframer: Deframer::new(),
        }
    }

    /// Takes octets through at most one frame, and how many; what the poll makes of the frame, if there is one.
    pub fn on(&mut self, octets: &[u8]) -> (usize, Option<Result<PollStep, PollFault>>)
        ensures within { result.0 ≤ length octets.now }
        ensures takes { Takes self.old.deframer.bytes
            (take result.0 octets.now) self.new.deframer.frame self.new.deframer.bytes }
        ensures none { self.new.deframer.frame ≡ None
            → (result.1 ≡ None) × (self.new.poller ≡ self.old.poller) }
        ensures polls { (f : Parts) → self.new.deframer.frame ≡ Some f
            → IfSome result.1 (λ step. (apdus : List (List ℕ)) → Fits self.old.poller apdus
            → PollsFrame apdus f self.old.poller step self.new.poller) }
        ensures some { (f : Parts) → self.new.deframer.frame ≡ Some f → IsSome result.1 }
    {
        let taken = self.deframer.feed(octets);
        match self.deframer.frame() {
            Some(frame) => (taken, Some(self.poller.on(&frame))),
            None => (taken, None),
        }
    }

    /// The outcome of a timeout, if a frame is out or the poll has failed.
    pub fn again(&mut self) -> Option<Result<SentFrame, PollFault>>
        ensures none { IfNone result ((CanTimeOut self.old.poller → ⊥) × (self.new ≡ self.old)) }
        ensures again { IfSome result (λ again. CanTimeOut self.old.poller
            × TimesOut self.old.poller again self.new.poller) }
    {
        if self.poller.is_waiting() {
            Some(self.poller.timeout())
        } else {
            None
        }
    }
}
