//! What carries APDUs between a client and its meter.

ghost use Rattle.std.specs.Prelude.{◌≡◌, ◌<◌, ◌≤◌, ◌↔◌, ℕ, List, length, IsTrue};
ghost use Rattle.dlms_wrapper.specs.declared.message.TheConstants.{MOST_APDU};
ghost use Rattle.dlms_carrier.specs.declared.event.Event.{Event as EventOf};
ghost use Rattle.dlms_carrier.specs.declared.event.Event.TheVariants.{Apdu, Up};
ghost use Rattle.dlms_carrier.specs.Carrying.{Input, Begin, Give, Feed, Wait, End};

use crate::event::{Event, Fed};

/// Carries APDUs between a client and its meter, over octets in both directions. One APDU goes out, and then its answer is awaited.
///
/// After each call the caller writes `out`. It passes the octets that it reads to `feed`, and calls `wait` if none arrived in time.
/// `steps` is the meaning of a call: the carrier before it, the call's arguments, its event, and the carrier after it. A run of
/// calls is `Runs` of `specs/Carrying`. Every carrier keeps two laws: it hands an APDU up only while an answer is awaited, and then
/// the connection is idle.
pub trait Carrier {
    /// The meaning of a call.
    ghost steps: { Self → Input → EventOf → Self → Type 0 };

    /// The octets to write after the last call.
    ghost out_of: { Self → List ℕ };

    /// The APDU that was handed up last.
    ghost apdu_of: { Self → List ℕ };

    /// There is no connection.
    ghost is_down: { Self → Type 0 };

    /// The connection is up, and nothing is awaited.
    ghost is_idle: { Self → Type 0 };

    /// The meter's answer is awaited.
    ghost is_waiting: { Self → Type 0 };

    /// Whether there is no connection: `begin` may be called.
    fn is_down(&self) -> bool
        ensures { IsTrue result ↔ is_down self.now };

    /// Whether the connection is up and nothing is awaited: `give` and `end` may be called.
    fn is_idle(&self) -> bool
        ensures { IsTrue result ↔ is_idle self.now };

    /// Whether the meter's answer is awaited: `wait` may be called.
    fn is_waiting(&self) -> bool
        ensures { IsTrue result ↔ is_waiting self.now };

    /// Requests a connection. The caller has checked `is_down`. Once the event is `Up`, here or of `feed`, an APDU may be given.
    fn begin(&mut self) -> Event
        requires { is_down self.old }
        ensures steps { steps self.old Begin result self.new }
        ensures up { result ≡ Up → is_idle self.new };

    /// Sends an APDU of at most 1,024 octets to the meter. The caller has checked `is_idle`.
    fn give(&mut self, apdu: &[u8]) -> Event
        requires idle { is_idle self.old }
        requires short { length apdu.now ≤ MOST_APDU }
        ensures { steps self.old (Give apdu.now) result self.new };

    /// Reads octets that arrived, up to the first event; pass the others to the next call. A carrier may drop those after the event,
    /// and then counts them as read. If it is given any, it reads at least one.
    fn feed(&mut self, octets: &[u8]) -> Fed
        ensures len { result.count ≤ length octets.now }
        ensures some { 0 < length octets.now → 0 < result.count }
        ensures steps { steps self.old (Feed octets.now result.count) result.event self.new }
        ensures up { result.event ≡ Up → is_idle self.new };

    /// No octet arrived for as long as the caller waits. The caller has checked `is_waiting`.
    fn wait(&mut self) -> Event
        requires { is_waiting self.old }
        ensures { steps self.old Wait result self.new };

    /// Requests the connection's end. The caller has checked `is_idle`.
    fn end(&mut self) -> Event
        requires { is_idle self.old }
        ensures { steps self.old End result self.new };

    /// The octets to write after the last call; none if nothing goes out.
    fn out(&self) -> &[u8]
        ensures { result.now ≡ out_of self.now };

    /// The APDU that was handed up, from the event `Apdu` to the next `feed`.
    fn apdu(&self) -> &[u8]
        ensures { result.now ≡ apdu_of self.now };

    /// An APDU is handed up only while an answer is awaited.
    ghost awaited: { (old new : Self) (octets : List ℕ) (count : ℕ) →
        steps old (Feed octets count) Apdu new → is_waiting old };

    /// Then the connection is idle.
    ghost settled: { (old new : Self) (octets : List ℕ) (count : ℕ) →
        steps old (Feed octets count) Apdu new → is_idle new };
}
