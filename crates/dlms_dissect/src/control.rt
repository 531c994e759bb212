//! The control field of a frame, by the standard's names.

ghost use Rattle.std.specs.Prelude.{◌≡◌};
ghost use Rattle.dlms_dissect.specs.Control.{has_poll, control_of, unnumbered_of};
ghost use Rattle.dlms_dissect.specs.Names.{control_name};

/// The meaning of a control field (IEC 62056-46, the control field): the kind of frame, with its numbers, whether or not its poll
/// bit is set.
#[derive(Clone, Copy)]
pub enum Control {
    /// Set normal response mode.
    Snrm,
    /// Disconnect.
    Disc,
    /// Unnumbered acknowledgement.
    Ua,
    /// Disconnected mode.
    Dm,
    /// Frame reject.
    Frmr,
    /// Unnumbered information.
    Ui,
    /// Information, with the number of the frame and the one that is expected.
    Information { send: u8, receive: u8 },
    /// Receive ready, with the number that is expected.
    Ready { receive: u8 },
    /// Receive not ready, with the number that is expected.
    NotReady { receive: u8 },
    /// None of these.
    Other,
}

/// The bit by which a client asks for an answer, and by which a meter ends one.
const POLL: u8 = 0x10;

/// Whether the poll bit, or of the meter's frames the final bit, is set.
pub fn has_poll(octet: u8) -> bool
    ensures { result ≡ has_poll octet }
{
    octet / POLL % 2 == 1
}

/// Reads a control field.
pub fn read(octet: u8) -> Control
    ensures { result ≡ control_of octet }
{
    let receive = octet / 32;
    if octet % 2 == 0 {
        let send = octet / 2 % 8;
        Control::Information { send, receive }
    } else if octet % 16 == 0x01 {
        Control::Ready { receive }
    } else if octet % 16 == 0x05 {
        Control::NotReady { receive }
    } else {
        unnumbered_frame(octet)
    }
}

/// The frame without numbers that this octet names, with its poll bit or without.
fn unnumbered_frame(octet: u8) -> Control
    ensures { result ≡ unnumbered_of octet }
{
    match octet {
        0x83 | 0x93 => Control::Snrm,
        0x43 | 0x53 => Control::Disc,
        0x63 | 0x73 => Control::Ua,
        0x0f | 0x1f => Control::Dm,
        0x87 | 0x97 => Control::Frmr,
        0x03 | 0x13 => Control::Ui,
        _ => Control::Other,
    }
}

/// The name that the standard gives such a frame.
pub fn name_of(control: Control) -> &'static str
    ensures { result.now ≡ control_name control }
{
    match control {
        Control::Snrm => "SNRM",
        Control::Disc => "DISC",
        Control::Ua => "UA",
        Control::Dm => "DM",
        Control::Frmr => "FRMR",
        Control::Ui => "UI",
        Control::Information { .. } => "I",
        Control::Ready { .. } => "RR",
        Control::NotReady { .. } => "RNR",
        Control::Other => "unknown control field",
    }
}
