//! Laws of checks and of a line, whose octets may come in any pieces. `TelegramReader::feed` has its clause by the same definitions.

ghost use Rattle.std.specs.Prelude.{◌≡◌, ◌∷◌, ◌++◌, [], List, ℕ, Bool};
ghost use Rattle.dlms_frame.specs.Check.{from_bits};
ghost use Rattle.dlms_telegram.specs.Check.{IsRemainder, check_of, dividend_of};
ghost use Rattle.dlms_telegram.specs.Cutting.{Call, Feeds, IsPart, completed_by, completed_of, octets_of};
ghost use Rattle.dlms_telegram.specs.Telegram.{Kept, Takes, dropped};

/// The check is what the division by x^16 + x^15 + x^2 + 1 leaves.
pub fn division()
    ensures some { (octets : List ℕ) → (left : List Bool) × IsRemainder (dividend_of octets) left }
    ensures check { (octets : List ℕ) (left : List Bool) → IsRemainder (dividend_of octets) left
        → check_of octets ≡ from_bits left }
{}

/// The check of the digits from 1 to 9 is BB3D, as the catalogues of CRCs have it for this polynomial (CRC-16/ARC).
pub fn known_check()
    ensures { check_of (0x31 ∷ 0x32 ∷ 0x33 ∷ 0x34 ∷ 0x35 ∷ 0x36 ∷ 0x37 ∷ 0x38 ∷ 0x39 ∷ [])
        ≡ 0xBB3D }
{}

/// The calls return what the octets of the line complete, each once and in their order.
pub fn telegrams()
    ensures { (start last : Kept) (calls : List Call) → Feeds start calls last →
        completed_by calls ≡ completed_of (dropped start) (octets_of calls) }
{}

/// However the octets of a line are cut into pieces, the calls return the same telegrams.
pub fn in_any_pieces()
    ensures { (start first second : Kept) (one other : List Call) → Feeds start one first
        → Feeds start other second →
        octets_of one ≡ octets_of other → completed_by one ≡ completed_by other }
{
    telegrams();
}

/// The octets that a call completes are octets of the line: of those that were kept, and those that it took.
pub fn octets_of_the_line()
    ensures { (old new : Kept) (taken : List ℕ) → Takes old taken new
        → IsPart ((dropped old).octets ++ taken) new.octets }
{}
