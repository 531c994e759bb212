//! Classes for parameters and measurement data (the Blue Book, IEC 62056-6-2).

ghost use Rattle.std.specs.Prelude.{◌≡◌, option_map};
ghost use Rattle.dlms_names.specs.Classes.{class_in, measurement_classes};
ghost use Rattle.dlms_names.specs.ClassView.{names_of};

use crate::class::Class;

const DATA: Class = Class {
    name: "Data",
    attributes: &["logical_name", "value"],
    methods: &[],
};

const REGISTER: Class = Class {
    name: "Register",
    attributes: &["logical_name", "value", "scaler_unit"],
    methods: &["reset"],
};

const EXTENDED_REGISTER: Class = Class {
    name: "Extended register",
    attributes: &[
        "logical_name",
        "value",
        "scaler_unit",
        "status",
        "capture_time",
    ],
    methods: &["reset"],
};

const DEMAND_REGISTER: Class = Class {
    name: "Demand register",
    attributes: &[
        "logical_name",
        "current_average_value",
        "last_average_value",
        "scaler_unit",
        "status",
        "capture_time",
        "start_time_current",
        "period",
        "number_of_periods",
    ],
    methods: &["reset", "next_period"],
};

const REGISTER_ACTIVATION: Class = Class {
    name: "Register activation",
    attributes: &[
        "logical_name",
        "register_assignment",
        "mask_list",
        "active_mask",
    ],
    methods: &["add_register", "add_mask", "delete_mask"],
};

const PROFILE_GENERIC: Class = Class {
    name: "Profile generic",
    attributes: &[
        "logical_name",
        "buffer",
        "capture_objects",
        "capture_period",
        "sort_method",
        "sort_object",
        "entries_in_use",
        "profile_entries",
    ],
    methods: &["reset", "capture"],
};

const REGISTER_TABLE: Class = Class {
    name: "Register table",
    attributes: &[
        "logical_name",
        "table_cell_values",
        "table_cell_definition",
        "scaler_unit",
    ],
    methods: &["reset", "capture"],
};

/// The class of this number, if it is one of these.
pub fn measurement_class(number: u16) -> Option<Class>
    ensures { option_map names_of result ≡ class_in measurement_classes number }
{
    match number {
        1 => Some(DATA),
        3 => Some(REGISTER),
        4 => Some(EXTENDED_REGISTER),
        5 => Some(DEMAND_REGISTER),
        6 => Some(REGISTER_ACTIVATION),
        7 => Some(PROFILE_GENERIC),
        61 => Some(REGISTER_TABLE),
        _ => None,
    }
}
