//! Which event a SET or an ACTION asks for.

ghost use Rattle.std.specs.Prelude.{◌≡◌, option_map};
ghost use Rattle.dlms_data.specs.View.{value_of};
ghost use Rattle.dlms_classes.specs.Access.{IsToldAs};
ghost use Rattle.dlms_classes.specs.Secrets.{secret_of as own_secret};
ghost use Rattle.dlms_classes.specs.Plan.{IsPlan, clock_to, text_to, secret_to, octets_of_time, text_setting, time_setting, period_setting, columns_setting, secret_setting, setting_asked, event_of, shift_asked, event_asked};

use crate::access::AccessResult;
use crate::column::columns;
use crate::lookup::{callable, writable};
use crate::secrets::secret_of;
use crate::table::{Call, Content};
use arrayvec::ArrayVec;
use dlms_data::{Data, Descriptor, secs};
use dlms_frame::Client;
use dlms_state::{Event, SecretOf};
use std::alloc::Allocator;

/// The octets of a time.
pub fn time_octets<A: Allocator>(value: &Data<A>) -> Result<&[u8], AccessResult>
    ensures { IsToldAs (λ octets. octets.now) result (octets_of_time (value_of value.now)) }
{
    match value {
        Data::DateTime(octets) => Ok(octets.as_slice()),
        Data::OctetString(octets) if octets.as_slice().len() == 12 => Ok(octets.as_slice()),
        _ => Err(AccessResult::TypeUnmatched),
    }
}

/// The event that sets the clock.
fn plan_time<A: Allocator>(value: &Data<A>) -> Result<Event, AccessResult>
    ensures { IsPlan (time_setting (value_of value.now)) result }
{
    let octets = time_octets(value)?;
    match secs(octets) {
        Some(second) => Ok(Event::SetTime(second)),
        None => Err(AccessResult::OtherReason),
    }
}

/// The event that sets the text.
fn plan_text<A: Allocator>(value: &Data<A>) -> Result<Event, AccessResult>
    ensures { IsPlan (text_setting (value_of value.now)) result }
{
    match value {
        Data::OctetString(bytes) | Data::VisibleString(bytes) => text_event(bytes.as_slice()),
        _ => Err(AccessResult::TypeUnmatched),
    }
}

fn text_event(bytes: &[u8]) -> Result<Event, AccessResult>
    ensures { IsPlan (Ok (text_to bytes.now)) result }
{
    let mut text = ArrayVec::new();
    if text.try_extend_from_slice(bytes).is_err() {
        return Err(AccessResult::OtherReason);
    }
    Ok(Event::SetText(text))
}

/// The event that sets the capture period.
fn plan_period<A: Allocator>(value: &Data<A>) -> Result<Event, AccessResult>
    ensures { IsPlan (period_setting (value_of value.now)) result }
{
    match value {
        Data::DoubleLongUnsigned(seconds) => Ok(Event::SetPeriod(*seconds)),
        _ => Err(AccessResult::TypeUnmatched),
    }
}

/// The event that sets the columns of the load profile.
fn plan_columns<A: Allocator>(value: &Data<A>) -> Result<Event, AccessResult>
    ensures { IsPlan (columns_setting (value_of value.now)) result }
{
    Ok(Event::SetColumns(columns(value)?))
}

/// The event that sets the client's own secret.
fn plan_secret<A: Allocator>(client: Client, value: &Data<A>) -> Result<Event, AccessResult>
    ensures { IsPlan (secret_setting (value_of value.now) (own_secret client)) result }
{
    match (value, secret_of(client)) {
        (Data::OctetString(bytes), Some(whose)) => secret_event(whose, bytes.as_slice()),
        _ => Err(AccessResult::TypeUnmatched),
    }
}

fn secret_event(whose: SecretOf, bytes: &[u8]) -> Result<Event, AccessResult>
    ensures { IsPlan (Ok (secret_to whose bytes.now)) result }
{
    let mut secret = ArrayVec::new();
    if secret.try_extend_from_slice(bytes).is_err() {
        return Err(AccessResult::OtherReason);
    }
    Ok(Event::SetSecret(whose, secret))
}

/// The event that SET of an attribute asks for. Whether the state accepts it is not looked at: an event that its `check`
/// refuses is answered as `OtherReason` too.
///
/// | Attribute | Takes |
/// |---|---|
/// | a text | octet-string or visible-string, at most 240 bytes |
/// | the clock's time | octet-string of twelve or date-time |
/// | the capture objects | array of at most four structures of class, name, attribute 2 and data index 0, each that of the clock or of a register |
/// | the capture period | double-long-unsigned |
/// | the secret, which is the client's own | octet-string, at most 16 bytes |
pub fn plan_set<A: Allocator>(
    client: Client,
    descriptor: Descriptor,
    value: &Data<A>,
) -> Result<Event, AccessResult>
    ensures { IsPlan (setting_asked client descriptor (value_of value.now)) result }
{
    let attribute = writable(client, descriptor)?;
    match attribute.content {
        Content::Text => plan_text(value),
        Content::Time => plan_time(value),
        Content::CaptureObjects => plan_columns(value),
        Content::CapturePeriod => plan_period(value),
        Content::Secret => plan_secret(client, value),
        _ => Err(AccessResult::TypeUnmatched),
    }
}

/// The event that shifts the clock.
fn plan_shift<A: Allocator>(parameter: Option<&Data<A>>) -> Result<Event, AccessResult>
    ensures { result ≡ shift_asked (option_map (λ v. value_of v.now) parameter.entry) }
{
    match parameter {
        Some(Data::Long(by)) => Ok(Event::Shift(*by)),
        _ => Err(AccessResult::TypeUnmatched),
    }
}

/// The event that ACTION of a method asks for. Whether the state accepts it is not looked at: an event that its `check`
/// refuses is answered as `OtherReason` too. A shift takes a long; the parameter of the other methods may be absent and is
/// not looked at.
pub fn plan_action<A: Allocator>(
    client: Client,
    descriptor: Descriptor,
    parameter: Option<&Data<A>>,
) -> Result<Event, AccessResult>
    ensures { result ≡ event_asked client descriptor
        (option_map (λ v. value_of v.now) parameter.entry) }
{
    match callable(client, descriptor)? {
        Call::ResetRegister(channel) => Ok(Event::ResetRegister(channel)),
        Call::AdjustToMinute => Ok(Event::AdjustMinute),
        Call::ShiftTime => plan_shift(parameter),
        Call::ResetProfile => Ok(Event::ResetProfile),
        Call::Capture => Ok(Event::Capture),
        Call::Withheld => Err(AccessResult::ReadWriteDenied),
    }
}
