//! Laws of runs. Nobody needs to call these functions: their contracts are the laws.

ghost use Rattle.std.specs.Prelude.{◌≡◌, ◌<◌, ◌≤◌, ◌^◌, ℕ, All, false, List, [], ◌∷◌, length, map};
ghost use Rattle.dlms_wrapper.specs.Stream.{stream_of};
ghost use Rattle.dlms_wrapper.specs.declared.message.TheConstants.{MOST_APDU};
ghost use Rattle.dlms_carrier.specs.Carrying.{Begin, Call, given, handed_up, read, written};
ghost use Rattle.dlms_carrier.specs.Tcp.{Brings, IsWithin, fresh, is_notification, TcpRuns, TcpValue, message_of};

/// The octets that go out in a run over TCP are the messages of the APDUs that were given, from the client's port to the meter's,
/// in their order, each once.
pub fn requests_are_sent()
    ensures { (old new : TcpValue) (calls : List Call) → TcpRuns old calls new →
        written calls ≡ stream_of (map (message_of old.own old.server) (given calls)) }
{}

/// On one connection over TCP each APDU that is handed up is that of a message from the meter's port to the client's, among the
/// messages of the octets that were read, in their order, each once at most. Octets are dropped only after the connection's end.
pub fn answers_are_received()
    ensures { (old new : TcpValue) (begin : Call) (calls : List Call) →
        begin.input ≡ Begin → All IsWithin calls → TcpRuns old (begin ∷ calls) new →
        Brings old.own old.server [] (read calls) (handed_up calls) new }
{}

/// In every run over TCP no more APDUs are handed up than were given.
pub fn one_answer_each()
    ensures { (own server : ℕ) (calls : List Call) (new : TcpValue) → TcpRuns (fresh own server) calls new →
        length (handed_up calls) ≤ length (given calls) }
{}

/// There is such a run: for any two APDUs of which the second is no notification, one is given, and the other is handed up.
pub fn exchanges_exist()
    ensures { (own server : ℕ) (apdu answer : List ℕ) →
        own < 2 ^ 16 → server < 2 ^ 16 → length apdu ≤ MOST_APDU → length answer ≤ MOST_APDU →
        is_notification answer ≡ false →
        (calls : List Call) × (new : TcpValue) × TcpRuns (fresh own server) calls new
        × (given calls ≡ apdu ∷ []) × (handed_up calls ≡ answer ∷ []) }
{}
