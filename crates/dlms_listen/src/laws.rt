//! Laws of a line, whose octets may come in any pieces. `Listener::feed` has its clause by the same definitions.

ghost use Rattle.std.specs.Prelude.{◌≡◌, Some, List, ℕ};
ghost use Rattle.dlms_frame.specs.Frame.{Parts};
ghost use Rattle.dlms_frame.specs.Stream.{FramesOf};
ghost use Rattle.dlms_wrapper.specs.Message.{Parts as Message};
ghost use Rattle.dlms_wrapper.specs.Stream.{Splits};
ghost use Rattle.dlms_listen.specs.Cutting.{Call, Feeds, IsStart, apdus_of, apdus_of_frames, apdus_of_messages, octets_of};
ghost use Rattle.dlms_listen.specs.Line.{Line};
ghost use Rattle.dlms_listen.specs.declared.carrier.Carrier.TheVariants.{Hdlc, Wrapper};

/// The calls return the APDUs of the line's frames, each once and in their order.
pub fn frames()
    ensures { (start last : Line) (calls : List Call) → IsStart (Some Hdlc) start
        → Feeds start calls last →
        (frames : List Parts) × FramesOf (octets_of calls) 0 frames
        × (apdus_of calls ≡ apdus_of_frames start.segments start.blocks frames) }
{
    dlms_frame::laws::any_pieces();
}

/// The calls return the APDUs of the line's messages, each once and in their order.
pub fn messages()
    ensures { (start last : Line) (calls : List Call) → IsStart (Some Wrapper) start
        → Feeds start calls last →
        (messages : List Message) × (rest : List ℕ) × Splits 1024 (octets_of calls) messages rest
        × (apdus_of calls ≡ apdus_of_messages start.segments start.blocks messages) }
{
    dlms_wrapper::laws::other_headers_are_refused();
}

/// However the octets of frames are cut into pieces, the calls return the same APDUs.
pub fn frames_in_any_pieces()
    ensures { (start first second : Line) (one other : List Call) → IsStart (Some Hdlc) start →
        Feeds start one first → Feeds start other second →
        octets_of one ≡ octets_of other → apdus_of one ≡ apdus_of other }
{
    frames();
    dlms_frame::laws::one_list();
}

/// However the octets of messages are cut into pieces, the calls return the same APDUs.
pub fn messages_in_any_pieces()
    ensures { (start first second : Line) (one other : List Call) → IsStart (Some Wrapper) start →
        Feeds start one first → Feeds start other second →
        octets_of one ≡ octets_of other → apdus_of one ≡ apdus_of other }
{
    messages();
    dlms_wrapper::laws::one_list();
}
