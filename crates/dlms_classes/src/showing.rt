//! The values of attributes.

ghost use Rattle.std.specs.Prelude.{◌≡◌, IfOk, IsErr, map, pos, slice_index};
ghost use Rattle.dlms_data.specs.Value.{array, structure, integer, enumerated, long_unsigned};
ghost use Rattle.dlms_data.specs.View.{value_of};
ghost use Rattle.dlms_frame.specs.Client.{sap_of};
ghost use Rattle.dlms_classes.specs.Choice.{Picks, IsProper};
ghost use Rattle.dlms_classes.specs.Listing.{map_values};
ghost use Rattle.dlms_classes.specs.Shown.{Part, shown, Shows, TakesMemory, column_value as column, no_column as no_object, two as pair};
ghost use Rattle.dlms_classes.specs.Table.{object_of_column as column_object, entry_of};

use crate::choosing::Choice;
use crate::listing::object_list;
use crate::rows::buffer;
use crate::table::{CAPTURED_ATTRIBUTE, Content, Object, object_of_column};
use dlms_data::{Data, Descriptor, four, octet_string_of, room, time_of, two};
use dlms_frame::Client;
use dlms_profile::CAPACITY;
use dlms_state::State;
use std::alloc::{AllocError, Allocator};

/// A date-time of which nothing is said.
const OPEN_TIME: [u8; 12] = [
    0xff, 0xff, 0xff, 0xff, 0xff, 0xff, 0xff, 0xff, 0xff, 0x80, 0x00, 0xff,
];

/// The column that an object gives.
fn column_of<A: Allocator + Copy>(alloc: A, object: Object) -> Result<Data<A>, AllocError>
    ensures { IfOk result (λ v. value_of v ≡ column (entry_of object)) }
{
    let name = octet_string_of(alloc, object.name.as_slice())?;
    let class = Data::LongUnsigned(object.class);
    let attribute = Data::Integer(CAPTURED_ATTRIBUTE);
    let index = Data::LongUnsigned(0);
    Ok(Data::Structure(four(alloc, class, name, attribute, index)?))
}

/// The columns of the load profile.
fn columns_of<A: Allocator + Copy>(alloc: A, columns: &[u8]) -> Result<Data<A>, AllocError>
    ensures { IfOk result (λ v. value_of v ≡ array
        (map_values (λ id. column (column_object id)) columns.now)) }
{
    let mut items = room(alloc, columns.len())?;
    for id in columns {
        items.push(column_of(alloc, object_of_column(*id))?)?;
    }
    Ok(Data::Array(items))
}

/// No column.
fn no_column<A: Allocator + Copy>(alloc: A) -> Result<Data<A>, AllocError>
    ensures { IfOk result (λ v. value_of v ≡ no_object) }
{
    let name = octet_string_of(alloc, &[0, 0, 0, 0, 0, 0])?;
    let class = Data::LongUnsigned(0);
    let attribute = Data::Integer(0);
    let index = Data::LongUnsigned(0);
    Ok(Data::Structure(four(alloc, class, name, attribute, index)?))
}

/// The value of a register; 0 if there is no such channel.
fn register<A: Allocator + Copy>(state: &State<A>, channel: u8) -> u32
    ensures { result ≡ slice_index state.now.registers channel }
{
    let registers = state.registers();
    registers.get(usize::from(channel)).copied().unwrap_or(0)
}

/// A unit, at the scale 1.
fn scaler_unit<A: Allocator + Copy>(alloc: A, unit: u8) -> Result<Data<A>, AllocError>
    ensures { IfOk result (λ v. value_of v ≡ structure (pair (integer (pos 0)) (enumerated unit))) }
{
    Ok(Data::Structure(two(alloc, Data::Integer(0), Data::Enum(unit))?))
}

/// The two ends of a client's association: the client, and the one logical device.
fn partners<A: Allocator + Copy>(alloc: A, client: Client) -> Result<Data<A>, AllocError>
    ensures { IfOk result (λ v. value_of v ≡ structure
        (pair (integer (pos (sap_of client))) (long_unsigned 1))) }
{
    let sap = Data::Integer(client.sap() as i8);
    Ok(Data::Structure(two(alloc, sap, Data::LongUnsigned(1))?))
}

/// The value of an attribute for a client; for the buffer, of the selected part. Out of memory is reported only if it takes some.
pub fn value<A: Allocator + Copy>(
    alloc: A,
    state: &State<A>,
    client: Client,
    descriptor: Descriptor,
    choice: Choice,
    content: Content,
) -> Result<Data<A>, AllocError>
    requires { IsProper state.now.columns choice }
    ensures shows { (p : Part) → Picks state.now.columns p choice
        → IfOk result (λ v. Shows (shown state.now client descriptor p content) (value_of v)) }
    ensures lacks { (p : Part) → Picks state.now.columns p choice → IsErr result
        → TakesMemory state.now p content }
{
    match content {
        Content::LogicalName => octet_string_of(alloc, descriptor.name.as_slice()),
        Content::DeviceName => octet_string_of(alloc, b"RTL0000000000001"),
        Content::SerialNumber => octet_string_of(alloc, b"00000001"),
        Content::Text => octet_string_of(alloc, state.text()),
        Content::Register(channel) => Ok(Data::DoubleLongUnsigned(register(state, channel))),
        Content::ScalerUnit(unit) => scaler_unit(alloc, unit),
        Content::Time => time_of(alloc, state.clock()),
        Content::TimeZone => Ok(Data::Long(0)),
        Content::ClockStatus => Ok(Data::Unsigned(0)),
        Content::DaylightTime => octet_string_of(alloc, OPEN_TIME.as_slice()),
        Content::DaylightDeviation => Ok(Data::Integer(0)),
        Content::DaylightEnabled => Ok(Data::Boolean(false)),
        Content::ClockBase => Ok(Data::Enum(1)),
        Content::ObjectList => object_list(alloc, client),
        Content::AssociatedPartners => partners(alloc, client),
        Content::AssociationStatus => Ok(Data::Enum(2)),
        Content::Buffer => buffer(alloc, state.columns(), state.rows(), choice),
        Content::CaptureObjects => columns_of(alloc, state.columns()),
        Content::CapturePeriod => Ok(Data::DoubleLongUnsigned(state.period())),
        Content::SortMethod => Ok(Data::Enum(1)),
        Content::SortObject => no_column(alloc),
        Content::EntriesInUse => Ok(Data::DoubleLongUnsigned(state.rows().len() as u32)),
        Content::ProfileEntries => Ok(Data::DoubleLongUnsigned(CAPACITY as u32)),
        Content::Withheld | Content::Secret => Ok(Data::Null),
    }
}
