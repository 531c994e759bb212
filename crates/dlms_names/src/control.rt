//! Classes for time- and event-bound control (the Blue Book, IEC 62056-6-2).

ghost use Rattle.std.specs.Prelude.{◌≡◌, option_map};
ghost use Rattle.dlms_names.specs.Classes.{class_in, control_classes};
ghost use Rattle.dlms_names.specs.ClassView.{names_of};

use crate::class::Class;

const CLOCK: Class = Class {
    name: "Clock",
    attributes: &[
        "logical_name",
        "time",
        "time_zone",
        "status",
        "daylight_savings_begin",
        "daylight_savings_end",
        "daylight_savings_deviation",
        "daylight_savings_enabled",
        "clock_base",
    ],
    methods: &[
        "adjust_to_quarter",
        "adjust_to_measuring_period",
        "adjust_to_minute",
        "adjust_to_preset_time",
        "preset_adjusting_time",
        "shift_time",
    ],
};

const SCRIPT_TABLE: Class = Class {
    name: "Script table",
    attributes: &["logical_name", "scripts"],
    methods: &["execute"],
};

const SCHEDULE: Class = Class {
    name: "Schedule",
    attributes: &["logical_name", "entries"],
    methods: &["enable/disable", "insert", "delete"],
};

const SPECIAL_DAYS_TABLE: Class = Class {
    name: "Special days table",
    attributes: &["logical_name", "entries"],
    methods: &["insert", "delete"],
};

const ACTIVITY_CALENDAR: Class = Class {
    name: "Activity calendar",
    attributes: &[
        "logical_name",
        "calendar_name_active",
        "season_profile_active",
        "week_profile_table_active",
        "day_profile_table_active",
        "calendar_name_passive",
        "season_profile_passive",
        "week_profile_table_passive",
        "day_profile_table_passive",
        "activate_passive_calendar_time",
    ],
    methods: &["activate_passive_calendar"],
};

const REGISTER_MONITOR: Class = Class {
    name: "Register monitor",
    attributes: &["logical_name", "thresholds", "monitored_value", "actions"],
    methods: &[],
};

const SINGLE_ACTION_SCHEDULE: Class = Class {
    name: "Single action schedule",
    attributes: &["logical_name", "executed_script", "type", "execution_time"],
    methods: &[],
};

const DISCONNECT_CONTROL: Class = Class {
    name: "Disconnect control",
    attributes: &[
        "logical_name",
        "output_state",
        "control_state",
        "control_mode",
    ],
    methods: &["remote_disconnect", "remote_reconnect"],
};

const LIMITER: Class = Class {
    name: "Limiter",
    attributes: &[
        "logical_name",
        "monitored_value",
        "threshold_active",
        "threshold_normal",
        "threshold_emergency",
        "min_over_threshold_duration",
        "min_under_threshold_duration",
        "emergency_profile",
        "emergency_profile_group_id_list",
        "emergency_profile_active",
        "actions",
    ],
    methods: &[],
};

/// The class of this number, if it is one of these.
pub fn control_class(number: u16) -> Option<Class>
    ensures { option_map names_of result ≡ class_in control_classes number }
{
    match number {
        8 => Some(CLOCK),
        9 => Some(SCRIPT_TABLE),
        10 => Some(SCHEDULE),
        11 => Some(SPECIAL_DAYS_TABLE),
        20 => Some(ACTIVITY_CALENDAR),
        21 => Some(REGISTER_MONITOR),
        22 => Some(SINGLE_ACTION_SCHEDULE),
        70 => Some(DISCONNECT_CONTROL),
        71 => Some(LIMITER),
        _ => None,
    }
}
