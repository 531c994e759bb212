//! A meter, and the pages to be written before its reply goes out.
ghost use Rattle.std.specs.Prelude.{◌≡◌, ◌≢◌, ◌⊎◌, ◌<◌, ◌≤◌, [], None, length, take, true, Ok, IfSome, IfNone, MatchOption, MatchResult, option_map};
ghost use Rattle.rtrb.specs.Ring.{received};
ghost use Rattle.dlms_c.specs.declared.codes.TheConstants.{CLOSED, DEVICE, DONE, MEMORY};
ghost use Rattle.dlms_c.specs.Codes.{open_code};
ghost use Rattle.dlms_c.specs.Meter.{Closes, EndsLinks, FallsSilent, FallsSilentKept, Fed, FeedsKept, HandsOut, HangsUpBoth, HangsUpKept, JudgesKept, JudgesOn, Looked, Replies, Settles, TakesOctets};
ghost use Rattle.dlms_c.specs.Refusal.{closed_code, reply_refusal_of};
ghost use Rattle.dlms_c.specs.Opening.{Begins, IsNewKept, IsRecovered, IsUnrecovered};
ghost use Rattle.dlms_state.specs.declared.event.Event.TheVariants.{Moment, Pulses};

use crate::codes::{CLOSED, DEVICE, DONE, LOST, MEMORY, NOTHING, PAGES, SHORT};
use crate::hanging_up::hang_up;
use crate::meter_codes::{of_event, of_opening};
use dlms_meter::{Meter, Reply};
use dlms_pages::{Call, Pages};
use dlms_relay::{Relay, RelayedPages};
use dlms_store::OpenFault;
use std::alloc::Global;

/// How many writes and syncs have room until they are taken.
pub const ROOM: usize = 128;

/// A meter whose pages another program keeps: the calls that that program has not carried out yet are in the relay, and a reply
/// goes out after them.
#[derive(Drop)]
pub struct KeptMeter {
    pub meter: Option<Meter<RelayedPages<Global>, Global>>,
    pub relay: Relay<Global>,
    pub reply: Option<Reply>,
    pub is_lost: bool,
}

/// A meter that was opened, before its first call; or the code that says why it was not opened.
fn begun(
    opened: Result<Meter<RelayedPages<Global>, Global>, (RelayedPages<Global>, OpenFault)>,
    relay: Relay<Global>,
) -> Result<KeptMeter, u32>
    requires { received relay ≡ [] }
    ensures { MatchResult result
        (λ kept. Begins kept × MatchOption kept.meter ⊥ (λ meter. opened ≡ Ok meter))
        (λ code. MatchResult opened (λ meter. ⊥) (λ e. code ≡ open_code e.1)) }
{
    match opened {
        Ok(meter) => Ok(KeptMeter {
            meter: Some(meter),
            relay,
            reply: None,
            is_lost: false,
        }),
        Err((_, fault)) => Err(of_opening(fault)),
    }
}

/// Feeds a meter that is there.
fn feed_on(
    meter: &mut Option<Meter<RelayedPages<Global>, Global>>,
    octets: &[u8],
) -> Option<(usize, Option<Reply>)>
    ensures none { IfNone result (closed_code meter.old ≡ CLOSED) }
    ensures some { IfSome result (λ r. closed_code meter.old ≡ 0) }
    ensures left { IfNone result (meter.new ≡ meter.old) }
    ensures within { IfSome result (λ r. r.0 ≤ length octets.now) }
    ensures takes { IfSome result (λ r. 0 < length octets.now → 0 < r.0) }
    ensures fed { IfSome result (λ r. Fed meter.old octets.now r.0
        (option_map (λ reply. reply.items) r.1) meter.new) }
{
    match meter {
        Some(running) => Some(running.feed(octets)),
        None => None,
    }
}

/// Gives a meter that is there pulses.
fn pulses_on(
    meter: &mut Option<Meter<RelayedPages<Global>, Global>>,
    channel: u8,
    count: u32,
) -> u32
    ensures { JudgesOn meter.old (Pulses channel count) result meter.new }
{
    match meter {
        Some(running) => of_event(&running.pulses(channel, count)),
        None => CLOSED,
    }
}

/// Gives a meter that is there its second.
fn moment_on(meter: &mut Option<Meter<RelayedPages<Global>, Global>>, second: u32) -> u32
    ensures { JudgesOn meter.old (Moment second) result meter.new }
{
    match meter {
        Some(running) => of_event(&running.moment(second)),
        None => CLOSED,
    }
}

/// Lets a meter that is there know of silence.
fn idle_on(meter: &mut Option<Meter<RelayedPages<Global>, Global>>) -> u32
    ensures code { result ≡ closed_code meter.old }
    ensures silent { result ≡ DONE → FallsSilent meter.old meter.new }
    ensures left { result ≢ DONE → meter.new ≡ meter.old }
{
    match meter {
        Some(running) => {
            running.idle();
            DONE
        }
        None => CLOSED,
    }
}

/// Ends every client's link at a meter that is there.
fn hang_up_on(meter: &mut Option<Meter<RelayedPages<Global>, Global>>) -> u32
    ensures code { result ≡ closed_code meter.old }
    ensures ended { result ≡ DONE → HangsUpBoth meter.old meter.new }
    ensures left { result ≢ DONE → meter.new ≡ meter.old }
{
    match meter {
        Some(running) => {
            hang_up(running);
            DONE
        }
        None => CLOSED,
    }
}

impl KeptMeter {
    /// A meter in which nothing has happened.
    pub fn format(alloc: Global) -> Result<KeptMeter, u32>
        ensures { MatchResult result IsNewKept (λ code. (code ≡ MEMORY) ⊎ (code ≡ DEVICE)) }
    {
        let Ok((device, relay)) = RelayedPages::new(alloc, dlms_store::PAGES, ROOM) else {
            return Err(MEMORY);
        };
        begun(Meter::format(alloc, device), relay)
    }

    /// A meter with every event that these pages hold, 544 octets for each.
    pub fn recover(alloc: Global, slots: &[u8]) -> Result<KeptMeter, u32>
        requires { 33728 ≤ length slots.now }
        ensures { MatchResult result (IsRecovered slots.now) (IsUnrecovered slots.now) }
    {
        let Ok((device, relay)) = RelayedPages::over(alloc, slots, dlms_store::PAGES, ROOM) else {
            return Err(MEMORY);
        };
        begun(Meter::recover(alloc, device), relay)
    }

    /// The code of a lost page, or of pages that wait; `DONE` if there is neither.
    fn is_clear(&mut self) -> u32
        ensures looked { Looked self.old self.new }
        ensures code { result ≡ reply_refusal_of self.old self.new }
    {
        if self.is_lost {
            return LOST;
        }
        if self.relay.is_empty() { DONE } else { PAGES }
    }

    /// Takes octets through at most one frame, and how many. Its reply is given by `give`.
    pub fn feed(&mut self, octets: &[u8]) -> (u32, usize)
        ensures { FeedsKept self.old octets.now result.0 result.1 self.new }
    {
        match self.is_clear() {
            DONE => self.take_octets(octets),
            code => (code, 0),
        }
    }

    /// Takes octets, whether or not pages wait.
    fn take_octets(&mut self, octets: &[u8]) -> (u32, usize)
        ensures { TakesOctets self.old octets.now result.0 result.1 self.new }
    {
        match feed_on(&mut self.meter, octets) {
            Some((taken, reply)) => {
                self.reply = reply;
                (DONE, taken)
            }
            None => (CLOSED, 0),
        }
    }

    /// Pulses on a channel.
    pub fn pulses(&mut self, channel: u8, count: u32) -> u32
        ensures { JudgesKept self.old (Pulses channel count) result self.new }
    {
        match self.is_clear() {
            DONE => pulses_on(&mut self.meter, channel, count),
            code => code,
        }
    }

    /// The meter's own running second.
    pub fn moment(&mut self, second: u32) -> u32
        ensures { JudgesKept self.old (Moment second) result self.new }
    {
        match self.is_clear() {
            DONE => moment_on(&mut self.meter, second),
            code => code,
        }
    }

    /// The next write or sync to carry out; none if a page was lost.
    pub fn next_page(&mut self) -> Option<Call>
        ensures { HandsOut self.old result self.new }
    {
        if self.is_lost {
            return None;
        }
        self.relay.pop().ok()
    }

    /// A write or a sync could not be done.
    pub fn lose(&mut self)
        ensures { self.new ≡ record self.old { is_lost = true } }
    {
        self.is_lost = true;
    }

    /// The reply is put into room that is not too short for it, and is gone then; how many octets it has.
    pub fn give(&mut self, room: &mut [u8]) -> (u32, usize)
        ensures { Replies self.old (length room.old) result.0
            (take result.1 room.new) result.1 self.new }
    {
        let code = self.is_clear();
        if code != DONE {
            return (code, 0);
        }
        let Some(reply) = self.reply.take() else {
            return (NOTHING, 0);
        };
        let count = reply.len();
        if room.len() < count {
            self.reply = Some(reply);
            return (SHORT, count);
        }
        room[..count].copy_from_slice(reply.as_slice());
        (DONE, count)
    }

    /// Settles what is pending. What that writes and syncs is still to be taken; nothing else is asked of the meter any more. If the
    /// device has failed, in this call or in an earlier one, what was pending is in doubt, and the code says so.
    pub fn close(&mut self) -> u32
        ensures { Closes self.old result self.new }
    {
        match self.is_clear() {
            DONE => self.settle(),
            code => code,
        }
    }

    /// Settles what is pending, whether or not pages wait.
    fn settle(&mut self) -> u32
        ensures { Settles self.old result self.new }
    {
        let Some(running) = self.meter.take() else {
            return CLOSED;
        };
        let device = running.close();
        self.reply = None;
        if device.faults() == 0 { DONE } else { DEVICE }
    }

    /// The connection has ended: so have every client's link, association and transfers, and no reply is left.
    pub fn hang_up(&mut self) -> u32
        ensures { HangsUpKept self.old result self.new }
    {
        match self.is_clear() {
            DONE => self.end_links(),
            code => code,
        }
    }

    /// Ends every link, whether or not pages wait.
    fn end_links(&mut self) -> u32
        ensures { EndsLinks self.old result self.new }
    {
        let code = hang_up_on(&mut self.meter);
        if code == DONE {
            self.reply = None;
        }
        code
    }

    /// Silence on the line: half a frame is forgotten.
    pub fn idle(&mut self) -> u32
        ensures { FallsSilentKept self.old result self.new }
    {
        if self.is_lost {
            LOST
        } else {
            idle_on(&mut self.meter)
        }
    }
}
