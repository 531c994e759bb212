//! Laws of messages and streams. Nobody needs to call these functions: their contracts are the laws.

ghost use Rattle.std.specs.Prelude.{◌≡◌, ◌≢◌, ◌<◌, ◌≤◌, ◌++◌, ℕ, All, List, [], length};
ghost use Rattle.dlms_wrapper.specs.Message.{Begins, IsMessage, Parts, message_bytes};
ghost use Rattle.dlms_wrapper.specs.Stream.{Call, Feeds, IsRefused, IsRefusedFor, Splits, bytes_of, messages_of, stream_of};
ghost use Rattle.dlms_wrapper.specs.declared.fault.HeaderFault.{HeaderFault};
ghost use Rattle.dlms_wrapper.specs.declared.fault.HeaderFault.TheVariants.{Version, TooLong};
ghost use Rattle.dlms_wrapper.specs.declared.header.Header.{Header};
ghost use Rattle.dlms_wrapper.specs.declared.header.TheConstants.{VERSION};
ghost use Rattle.dlms_wrapper.specs.declared.message.TheConstants.{MOST_APDU, MOST_MESSAGE};

/// A message has one spelling, and octets begin with one message at most, whatever follows.
pub fn one_spelling()
    ensures { (m n : Parts) (after rest : List ℕ) →
        message_bytes m ++ after ≡ message_bytes n ++ rest → (m ≡ n) × (after ≡ rest) }
{}

/// A stream is one list of messages, and one rest that begins with no whole message.
pub fn one_list()
    ensures { (limit : ℕ) (stream : List ℕ) (ms ns : List Parts) (rest left : List ℕ) →
        Splits limit stream ms rest → Splits limit stream ns left → (ms ≡ ns) × (rest ≡ left) }
{}

/// However a stream is cut into pieces, the calls of `feed` return its messages.
pub fn any_pieces()
    ensures { (limit : ℕ) (calls : List Call) (new : List ℕ) →
        Feeds limit [] calls new → Splits limit (bytes_of calls) (messages_of calls) new }
{}

/// Written messages are read again: once `feed` has read all their octets, in pieces of any size, it has returned these messages,
/// and no octet is left.
pub fn written_is_read()
    ensures { (limit : ℕ) (ms : List Parts) (calls : List Call) (new : List ℕ) →
        All (IsMessage limit) ms → Feeds limit [] calls new →
        bytes_of calls ≡ stream_of ms → (messages_of calls ≡ ms) × (new ≡ []) }
{}

/// Another version, and a length above the limit, are refused by name. No message begins with a refused header, however the stream
/// continues.
pub fn other_headers_are_refused()
    ensures version { (limit : ℕ) (bytes : List ℕ) (h : Header) →
        Begins bytes h → h.version ≢ VERSION → IsRefusedFor limit bytes (Version h.version) }
    ensures length { (limit : ℕ) (bytes : List ℕ) (h : Header) →
        Begins bytes h → h.version ≡ VERSION → limit < h.len → IsRefusedFor limit bytes (TooLong h.len limit) }
    ensures cause { (limit : ℕ) (bytes : List ℕ) (why : HeaderFault) →
        IsRefusedFor limit bytes why → IsRefused limit bytes }
    ensures for_good { (limit : ℕ) (bytes more after : List ℕ) (m : Parts) →
        limit ≤ MOST_APDU → IsRefused limit bytes → IsMessage limit m →
        bytes ++ more ≡ message_bytes m ++ after → ⊥ }
{}

/// The numbers that clauses and definitions cite by name: the version, and most octets.
pub fn the_numbers()
    ensures { (VERSION ≡ 1) × (MOST_APDU ≡ 1024) × (MOST_MESSAGE ≡ 1032) }
{}
