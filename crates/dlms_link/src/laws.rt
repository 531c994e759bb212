//! Laws over whole runs. They make no call.

ghost use Rattle.std.specs.Prelude.{◌≡◌, ◌≤◌, ◌<◌, ◌∷◌, ◌++◌, ◌⊎◌, ℕ, List, [], length, map, min, Option, Some, None, IfSome};
ghost use Rattle.dlms_frame.specs.declared.client.Client.{Client};
ghost use Rattle.dlms_link.specs.declared.server_row.ServerRow.TheVariants.{HandsUp};
ghost use Rattle.dlms_link.specs.declared.client_row.ClientRow.TheVariants.{Takes};
ghost use Rattle.dlms_link.specs.Kept.{Fresh, BadStart, llc, from_meter, from_client, capped, apdu_of};
ghost use Rattle.dlms_link.specs.Parameters.{Parameter, IsInformation, IsProposable, agreed_size, greatest_received, capped_size, proposed_information, proposed_parameters, size_of};
ghost use Rattle.dlms_link.specs.Readdressing.{AddressesAreFree, Pair};
ghost use Rattle.dlms_link.specs.Segments.{joined, kept_after_all, read_whole, IsSegmented, IsUnderWay};
ghost use Rattle.dlms_link.specs.Between.{MeterGoes, GoesOn, BeginsAnew, IsAnew, IsByWay, Heard, ClientGoes, ClientGoesOn, ClientBeginsAnew, IsAnewForClient, client_hears};
ghost use Rattle.dlms_frame.specs.Frame.{Parts};
ghost use Rattle.dlms_link.specs.Server.{ServerRecord, answered, link_step, row_of, server_on, server_send, told};
ghost use Rattle.dlms_link.specs.Client.{ClientRecord, IsSizedAfter, client_send, client_step, takes};
ghost use Rattle.dlms_link.specs.Line.{ApdusComeUp, LineIsSilent, OneFrameAtMost};
ghost use Rattle.dlms_link.specs.World.{LinkEvent, run, start_proposing, IsBeginningOf};
ghost use Rattle.dlms_link.specs.declared.parameters.TheConstants.{MOST_RECEIVED};
ghost use Rattle.dlms_link.specs.declared.segments.TheConstants.{MOST_BYTES};
ghost use Rattle.dlms_link.specs.declared.kept.TheConstants.{DESTINATION, FROM_CLIENT, FROM_METER, QUALITY, MOST_APDU};
ghost use Rattle.dlms_link.specs.declared.control.TheConstants.{SNRM, DISC, UA, DM};

/// Over a line that loses any frames, with timeouts only while nothing is on the line, each end hands up a prefix of the APDUs that
/// the other was given to send in a connection, each once and in order, whether the client proposes a size or not.
pub fn in_order()
    ensures to_meter { (proposal : Option ℕ) (who : Client) (events : List LinkEvent)
        → IfSome proposal IsProposable → let w = run events (start_proposing proposal who) in
        IsBeginningOf w.served w.asked }
    ensures to_client { (proposal : Option ℕ) (who : Client) (events : List LinkEvent)
        → IfSome proposal IsProposable → let w = run events (start_proposing proposal who) in
        IsBeginningOf w.taken w.answers }
    ensures in_step { (proposal : Option ℕ) (who : Client) (events : List LinkEvent)
        → IfSome proposal IsProposable → let w = run events (start_proposing proposal who) in
        length w.served ≡ length w.answers }
{}

/// In every such run an APDU is handed up only if the meter's end is up and the client's link is open; if the client awaits
/// nothing, nothing is on the line; and at most one frame is on the line at any time.
pub fn the_line()
    ensures comes_up { ApdusComeUp }
    ensures silent { LineIsSilent }
    ensures one_frame { OneFrameAtMost }
{}

/// Between any two addresses a client's link does what it does between any others: it takes only the frames that its meter sends to
/// it, and its own frames differ in their addresses alone.
pub fn addresses_are_free()
    ensures { (pair : Pair) (c : ClientRecord) → AddressesAreFree pair c }
{}

/// An APDU that is handed up and the answer that is sent for it are one row of the meter's table.
pub fn apdu_and_answer_are_one_row()
    ensures { (r : ServerRecord) (f : Parts) (answer : List ℕ) → row_of r f ≡ HandsUp
        → link_step r f answer ≡ answered r f answer }
{}

/// Segments read one by one give the same as when joined, if the first one contains the whole LLC. If it does not, it is a bad
/// start, whatever follows.
pub fn segments_are_joined()
    ensures bad_start { (side : ℕ) (first : List ℕ) (infos : List (List ℕ)) → length first < 3
        → kept_after_all side Fresh (first ∷ infos) ≡ BadStart }
    ensures whole { (side : ℕ) (first : List ℕ) (infos : List (List ℕ)) → 3 ≤ length first
        → kept_after_all side Fresh (first ∷ infos) ≡ read_whole side (joined (first ∷ infos)) }
{}

/// An SNRM's parameters are read exactly: information that spells parameters is read as what they say, and nothing else is.
pub fn parameters_are_read()
    ensures read { (info : List ℕ) (ps : List Parameter) → IsInformation info ps
        → size_of info ≡ capped_size (greatest_received ps) }
    ensures found { (info : List ℕ) (size : ℕ) → size_of info ≡ Some size
        → (ps : List Parameter) × IsInformation info ps }
{}

/// A proposal says what the client receives, and a meter of this project sends it 128 octets in a frame. The UA decides how much the
/// client sends: the greatest that the meter receives, and at most 128. Only a UA that brings the link up changes it. Without a
/// proposal, and with a meter of this project, it is 128 throughout.
pub fn sizes_are_agreed()
    ensures proposed { (size : ℕ) → IsProposable size
        → (greatest_received (proposed_parameters size) ≡ size)
        × (size_of (proposed_information (Some size)) ≡ Some MOST_BYTES) }
    ensures agreed { (size : ℕ) (ua : List ℕ) (ps : List Parameter) → IsInformation ua ps
        → 32 ≤ greatest_received ps
        → agreed_size (Some size) ua ≡ min (greatest_received ps) MOST_BYTES }
    ensures otherwise { (size : ℕ) (ua : List ℕ) → size_of ua ≡ None
        → agreed_size (Some size) ua ≡ MOST_BYTES }
    ensures after { (c : ClientRecord) (f : Parts)
        → IsSizedAfter c f.info (client_step c f).1 (client_step c f).0 }
    ensures unproposed { (ua : List ℕ) → agreed_size None ua ≡ MOST_BYTES }
    ensures whole { (proposal : Option ℕ) (who : Client) (events : List LinkEvent)
        → IfSome proposal IsProposable
        → let c = (run events (start_proposing proposal who)).client in
        (c.proposal ≡ proposal) × (c.size ≡ MOST_BYTES) }
{}

/// Whatever arrives at an end between two APDUs, the outcome of the second is that of its segments, joined. Ignored frames, answers
/// that are requested again, segments of an answer, and timeouts may come in between. Each list of frames (at the client's end, of
/// frames and silences) continues like this to its end, or is cut when the link comes up (at the client's end, or goes down) or an
/// APDU is complete; nothing is kept at that point.
pub fn segments_are_taken()
    ensures meter { (r now : ServerRecord) (frames sent : List Parts) (taken : List (List ℕ))
        (f : Parts) → MeterGoes r frames taken sent now → r.kept ≡ Fresh → row_of now f ≡ HandsUp
        → ((server_on now f).1 ≡ told (kept_after_all from_client Fresh (taken ++ f.info ∷ [])))
        × ((server_on now f).0.apdu ≡ apdu_of
        (kept_after_all from_client Fresh (taken ++ f.info ∷ []))) }
    ensures client { (c now : ClientRecord) (heard : List Heard) (taken : List (List ℕ))
        (sent : List Parts) (f : Parts) → ClientGoes c heard taken sent now → c.kept ≡ Fresh
        → IsByWay now f Takes
        → client_step now f ≡ takes now f.segmented
        (kept_after_all from_meter Fresh (taken ++ f.info ∷ [])) }
    ensures cut { (r : ServerRecord) (frames : List Parts) → GoesOn r frames ⊎ BeginsAnew r frames }
    ensures anew { (r : ServerRecord) (f : Parts) → IsAnew (row_of r f)
        → (server_on r f).0.kept ≡ Fresh }
    ensures client_cut { (c : ClientRecord) (heard : List Heard)
        → ClientGoesOn c heard ⊎ ClientBeginsAnew c heard }
    ensures client_anew { (c : ClientRecord) (h : Heard) → IsAnewForClient c h
        → (client_hears c h).kept ≡ Fresh }
    ensures answered { (r : ServerRecord) (answer : List ℕ)
        → (server_send r answer).0.kept ≡ r.kept }
{}

/// An APDU goes out in segments: their information, joined, is the LLC and the APDU, all but the last have exactly the size
/// of the link, and the last alone says that nothing follows. So far as they have gone out they are its beginning, whatever
/// came meanwhile. Read by the other end, they are the APDU again.
pub fn segments_are_sent()
    ensures meter { (r now : ServerRecord) (answer : List ℕ) (frames sent : List Parts)
        (taken : List (List ℕ)) → MeterGoes (server_send r answer).0 frames taken sent now
        → IsUnderWay r.size (llc from_meter ++ answer)
        ((server_send r answer).1 ∷ sent) now.unsent }
    ensures client { (c now : ClientRecord) (apdu : List ℕ) (heard : List Heard) (sent : List Parts)
        (taken : List (List ℕ)) → ClientGoes (client_send c apdu).0 heard taken sent now
        → (rest : List ℕ) × IsUnderWay c.size (llc from_client ++ apdu)
        ((client_send c apdu).1 ∷ sent) rest × (taken ≡ [] → now.unsent ≡ rest) }
    ensures read_again { (side size : ℕ) (apdu : List ℕ) (frames : List Parts) → 3 ≤ size
        → IsSegmented size (llc side ++ apdu) frames
        → kept_after_all side Fresh (map (λ f. f.info) frames) ≡ capped apdu }
{}

/// The numbers that clauses and definitions cite by name: control octets, the LLC's octets, and most bytes.
pub fn the_numbers()
    ensures control { (SNRM ≡ 0x93) × (DISC ≡ 0x53) × (UA ≡ 0x73) × (DM ≡ 0x1F) }
    ensures llc { (DESTINATION ≡ 0xE6) × (FROM_CLIENT ≡ 0xE6) × (FROM_METER ≡ 0xE7)
        × (QUALITY ≡ 0) }
    ensures most { (MOST_BYTES ≡ 128) × (MOST_APDU ≡ 1024) × (MOST_RECEIVED ≡ 2030) }
{}
