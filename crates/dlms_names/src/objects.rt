//! Objects that have a short name.

/// An object that meters have most, with a short name for it: an alias.
#[derive(Clone, Copy, Debug, PartialEq, Eq)]
pub struct KnownObject {
    pub alias: &'static str,
    /// Its logical name (OBIS code, IEC 62056-6-1).
    pub code: [u8; 6],
    /// Its class (Blue Book, class_id).
    pub class: u16,
}

/// The objects that have a short name. `code_name` has the full name of each.
pub const OBJECTS: &[KnownObject] = &[
    KnownObject {
        alias: "clock",
        code: [0, 0, 1, 0, 0, 255],
        class: 8,
    },
    KnownObject {
        alias: "profile",
        code: [1, 0, 99, 1, 0, 255],
        class: 7,
    },
    KnownObject {
        alias: "profile-2",
        code: [1, 0, 99, 2, 0, 255],
        class: 7,
    },
    KnownObject {
        alias: "billing",
        code: [1, 0, 98, 1, 0, 255],
        class: 7,
    },
    KnownObject {
        alias: "events",
        code: [0, 0, 99, 98, 0, 255],
        class: 7,
    },
    KnownObject {
        alias: "serial",
        code: [0, 0, 96, 1, 0, 255],
        class: 1,
    },
    KnownObject {
        alias: "device-2",
        code: [0, 0, 96, 1, 1, 255],
        class: 1,
    },
    KnownObject {
        alias: "device-3",
        code: [0, 0, 96, 1, 2, 255],
        class: 1,
    },
    KnownObject {
        alias: "name",
        code: [0, 0, 42, 0, 0, 255],
        class: 1,
    },
    KnownObject {
        alias: "firmware",
        code: [1, 0, 0, 2, 0, 255],
        class: 1,
    },
    KnownObject {
        alias: "association",
        code: [0, 0, 40, 0, 0, 255],
        class: 15,
    },
    KnownObject {
        alias: "sap",
        code: [0, 0, 41, 0, 0, 255],
        class: 17,
    },
    KnownObject {
        alias: "security",
        code: [0, 0, 43, 0, 0, 255],
        class: 64,
    },
    KnownObject {
        alias: "image",
        code: [0, 0, 44, 0, 0, 255],
        class: 18,
    },
    KnownObject {
        alias: "hdlc",
        code: [0, 0, 22, 0, 0, 255],
        class: 23,
    },
    KnownObject {
        alias: "tcp",
        code: [0, 0, 25, 0, 0, 255],
        class: 41,
    },
    KnownObject {
        alias: "reset",
        code: [0, 0, 10, 0, 0, 255],
        class: 9,
    },
    KnownObject {
        alias: "calendar",
        code: [0, 0, 13, 0, 0, 255],
        class: 20,
    },
    KnownObject {
        alias: "end-of-billing",
        code: [0, 0, 15, 0, 0, 255],
        class: 22,
    },
    KnownObject {
        alias: "disconnect",
        code: [0, 0, 96, 3, 10, 255],
        class: 70,
    },
    KnownObject {
        alias: "error",
        code: [0, 0, 97, 97, 0, 255],
        class: 1,
    },
    KnownObject {
        alias: "alarm",
        code: [0, 0, 97, 98, 0, 255],
        class: 1,
    },
    KnownObject {
        alias: "import",
        code: [1, 0, 1, 8, 0, 255],
        class: 3,
    },
    KnownObject {
        alias: "export",
        code: [1, 0, 2, 8, 0, 255],
        class: 3,
    },
    KnownObject {
        alias: "reactive-import",
        code: [1, 0, 3, 8, 0, 255],
        class: 3,
    },
    KnownObject {
        alias: "reactive-export",
        code: [1, 0, 4, 8, 0, 255],
        class: 3,
    },
    KnownObject {
        alias: "reactive-qi",
        code: [1, 0, 5, 8, 0, 255],
        class: 3,
    },
    KnownObject {
        alias: "reactive-qii",
        code: [1, 0, 6, 8, 0, 255],
        class: 3,
    },
    KnownObject {
        alias: "reactive-qiii",
        code: [1, 0, 7, 8, 0, 255],
        class: 3,
    },
    KnownObject {
        alias: "reactive-qiv",
        code: [1, 0, 8, 8, 0, 255],
        class: 3,
    },
    KnownObject {
        alias: "apparent-import",
        code: [1, 0, 9, 8, 0, 255],
        class: 3,
    },
    KnownObject {
        alias: "apparent-export",
        code: [1, 0, 10, 8, 0, 255],
        class: 3,
    },
    KnownObject {
        alias: "power",
        code: [1, 0, 1, 7, 0, 255],
        class: 3,
    },
    KnownObject {
        alias: "power-export",
        code: [1, 0, 2, 7, 0, 255],
        class: 3,
    },
    KnownObject {
        alias: "reactive-power",
        code: [1, 0, 3, 7, 0, 255],
        class: 3,
    },
    KnownObject {
        alias: "reactive-power-export",
        code: [1, 0, 4, 7, 0, 255],
        class: 3,
    },
    KnownObject {
        alias: "apparent-power",
        code: [1, 0, 9, 7, 0, 255],
        class: 3,
    },
    KnownObject {
        alias: "apparent-power-export",
        code: [1, 0, 10, 7, 0, 255],
        class: 3,
    },
];

/// The code of the object with this short name.
pub fn code_of(alias: &str) -> Option<[u8; 6]> {
    for object in OBJECTS {
        if object.alias == alias {
            return Some(object.code);
        }
    }
    None
}
