//! The objects: the one place that says which there are, what they hold, and who may read, write and call it.

ghost use Rattle.std.specs.Prelude.{◌≡◌, ◌==◌, ◌&&◌};
ghost use Rattle.std.specs.Str.{bytes_eq};
ghost use Rattle.dlms_classes.specs.Table.{entry_of, object_of_column as column_object, id_of as column_id};

/// Units, in the standard's numbering.
const WATT_HOURS: u8 = 30;

const VAR_HOURS: u8 = 32;

/// The content of an attribute.
#[derive(Clone, Copy, PartialEq, Eq)]
pub enum Content {
    LogicalName,
    DeviceName,
    SerialNumber,
    Text,
    /// The value of the register on a channel.
    Register(u8),
    /// The unit of a register, in the standard's numbering, at the scale 1.
    ScalerUnit(u8),
    Time,
    TimeZone,
    ClockStatus,
    DaylightTime,
    DaylightDeviation,
    DaylightEnabled,
    ClockBase,
    ObjectList,
    AssociatedPartners,
    /// Listed, and held from everybody.
    Withheld,
    Secret,
    AssociationStatus,
    Buffer,
    CaptureObjects,
    CapturePeriod,
    SortMethod,
    SortObject,
    EntriesInUse,
    ProfileEntries,
}

/// A client's rights to an attribute.
#[derive(Clone, Copy, PartialEq, Eq)]
pub enum Rights {
    Nothing,
    Read,
    Write,
    ReadWrite,
}

/// The effect of a method.
#[derive(Clone, Copy, PartialEq, Eq)]
pub enum Call {
    /// Listed, and held from everybody.
    Withheld,
    ResetRegister(u8),
    AdjustToMinute,
    ShiftTime,
    ResetProfile,
    Capture,
}

#[derive(Clone, Copy, PartialEq, Eq)]
pub struct Attribute {
    pub content: Content,
    pub public: Rights,
    pub management: Rights,
}

/// A row of the table. Attributes and methods are numbered from 1.
#[derive(Clone, Copy)]
pub struct Object {
    pub class: u16,
    pub version: u8,
    pub name: [u8; 6],
    pub attributes: &'static [Attribute],
    pub methods: &'static [Call],
}

/// An attribute with the rights of the public client and of management. Those of the reader are made of management's.
macro_rules! holds {
    ($content:expr, $public:ident, $management:ident) => {
        Attribute {
            content: $content,
            public: Rights::$public,
            management: Rights::$management,
        }
    };
}

/// An attribute that every client may read.
macro_rules! shows {
    ($content:expr) => {
        holds!($content, Read, Read)
    };
}

/// An attribute that every client may read, and management may set.
macro_rules! sets {
    ($content:expr) => {
        holds!($content, Read, ReadWrite)
    };
}

const DEVICE_NAME: Object = Object {
    class: 1,
    version: 0,
    name: [0, 0, 42, 0, 0, 255],
    attributes: &[shows!(Content::LogicalName), shows!(Content::DeviceName)],
    methods: &[],
};

const ASSOCIATION: Object = Object {
    class: 15,
    version: 0,
    name: [0, 0, 40, 0, 0, 255],
    attributes: &[
        shows!(Content::LogicalName),
        shows!(Content::ObjectList),
        shows!(Content::AssociatedPartners),
        holds!(Content::Withheld, Nothing, Nothing),
        holds!(Content::Withheld, Nothing, Nothing),
        holds!(Content::Withheld, Nothing, Nothing),
        holds!(Content::Secret, Nothing, Write),
        shows!(Content::AssociationStatus),
    ],
    methods: &[
        Call::Withheld,
        Call::Withheld,
        Call::Withheld,
        Call::Withheld,
    ],
};

/// The object of a selection by range.
const CLOCK: Object = Object {
    class: 8,
    version: 0,
    name: [0, 0, 1, 0, 0, 255],
    attributes: &[
        shows!(Content::LogicalName),
        sets!(Content::Time),
        shows!(Content::TimeZone),
        shows!(Content::ClockStatus),
        shows!(Content::DaylightTime),
        shows!(Content::DaylightTime),
        shows!(Content::DaylightDeviation),
        shows!(Content::DaylightEnabled),
        shows!(Content::ClockBase),
    ],
    methods: &[
        Call::Withheld,
        Call::Withheld,
        Call::AdjustToMinute,
        Call::Withheld,
        Call::Withheld,
        Call::ShiftTime,
    ],
};

const SERIAL_NUMBER: Object = Object {
    class: 1,
    version: 0,
    name: [0, 0, 96, 1, 0, 255],
    attributes: &[shows!(Content::LogicalName), shows!(Content::SerialNumber)],
    methods: &[],
};

const TEXT: Object = Object {
    class: 1,
    version: 0,
    name: [0, 0, 96, 1, 1, 255],
    attributes: &[shows!(Content::LogicalName), sets!(Content::Text)],
    methods: &[],
};

const ENERGY_IMPORTED: Object = Object {
    class: 3,
    version: 0,
    name: [1, 0, 1, 8, 0, 255],
    attributes: &[
        shows!(Content::LogicalName),
        shows!(Content::Register(0)),
        shows!(Content::ScalerUnit(WATT_HOURS)),
    ],
    methods: &[Call::ResetRegister(0)],
};

const ENERGY_EXPORTED: Object = Object {
    class: 3,
    version: 0,
    name: [1, 0, 2, 8, 0, 255],
    attributes: &[
        shows!(Content::LogicalName),
        shows!(Content::Register(1)),
        shows!(Content::ScalerUnit(WATT_HOURS)),
    ],
    methods: &[Call::ResetRegister(1)],
};

const REACTIVE_ENERGY: Object = Object {
    class: 3,
    version: 0,
    name: [1, 0, 3, 8, 0, 255],
    attributes: &[
        shows!(Content::LogicalName),
        shows!(Content::Register(2)),
        shows!(Content::ScalerUnit(VAR_HOURS)),
    ],
    methods: &[Call::ResetRegister(2)],
};

const PROFILE: Object = Object {
    class: 7,
    version: 1,
    name: [1, 0, 99, 1, 0, 255],
    attributes: &[
        shows!(Content::LogicalName),
        holds!(Content::Buffer, Nothing, Read),
        sets!(Content::CaptureObjects),
        sets!(Content::CapturePeriod),
        shows!(Content::SortMethod),
        shows!(Content::SortObject),
        shows!(Content::EntriesInUse),
        shows!(Content::ProfileEntries),
    ],
    methods: &[Call::ResetProfile, Call::Capture],
};

/// The objects, in the order of the object list.
pub const OBJECTS: [Object; 9] = [
    DEVICE_NAME,
    ASSOCIATION,
    CLOCK,
    SERIAL_NUMBER,
    TEXT,
    ENERGY_IMPORTED,
    ENERGY_EXPORTED,
    REACTIVE_ENERGY,
    PROFILE,
];

/// The attribute of each object of `COLUMNS` that is captured.
pub const CAPTURED_ATTRIBUTE: i8 = 2;

/// The objects of which an attribute can be a column of the load profile. The id of the column is the object's place here.
const COLUMNS: [Object; 4] = [CLOCK, ENERGY_IMPORTED, ENERGY_EXPORTED, REACTIVE_ENERGY];

/// The object that gives the column of an id, 0 to 3.
pub fn object_of_column(id: u8) -> Object
    ensures { entry_of result ≡ column_object id }
{
    match id {
        1 => ENERGY_IMPORTED,
        2 => ENERGY_EXPORTED,
        3 => REACTIVE_ENERGY,
        _ => CLOCK,
    }
}

/// Whether the object has this class and name.
fn is_named(object: Object, class: u16, name: &[u8]) -> bool
    ensures { result ≡ ((object.class == class) && bytes_eq object.name name.now) }
{
    object.class == class && object.name.as_slice() == name
}

/// The id of the column that the object of this class and name gives.
pub fn id_of(class: u16, name: &[u8]) -> Option<u8>
    ensures { result ≡ column_id class name.now }
{
    for (id, object) in COLUMNS.iter().enumerate() {
        if is_named(*object, class, name) {
            return Some(id as u8);
        }
    }
    None
}
