//! Classes for access control and management (the Blue Book, IEC 62056-6-2).

ghost use Rattle.std.specs.Prelude.{◌≡◌, option_map};
ghost use Rattle.dlms_names.specs.Classes.{class_in, management_classes};
ghost use Rattle.dlms_names.specs.ClassView.{names_of};

use crate::class::Class;

const ASSOCIATION_SN: Class = Class {
    name: "Association SN",
    attributes: &[
        "logical_name",
        "object_list",
        "access_rights_list",
        "security_setup_reference",
    ],
    methods: &[],
};

const ASSOCIATION_LN: Class = Class {
    name: "Association LN",
    attributes: &[
        "logical_name",
        "object_list",
        "associated_partners_id",
        "application_context_name",
        "xDLMS_context_info",
        "authentication_mechanism_name",
        "secret",
        "association_status",
        "security_setup_reference",
        "user_list",
        "current_user",
    ],
    methods: &[
        "reply_to_HLS_authentication",
        "change_HLS_secret",
        "add_object",
        "remove_object",
        "add_user",
        "remove_user",
    ],
};

const SAP_ASSIGNMENT: Class = Class {
    name: "SAP assignment",
    attributes: &["logical_name", "SAP_assignment_list"],
    methods: &["connect_logical_device"],
};

const IMAGE_TRANSFER: Class = Class {
    name: "Image transfer",
    attributes: &[
        "logical_name",
        "image_block_size",
        "image_transferred_blocks_status",
        "image_first_not_transferred_block_number",
        "image_transfer_enabled",
        "image_transfer_status",
        "image_to_activate_info",
    ],
    methods: &[
        "image_transfer_initiate",
        "image_block_transfer",
        "image_verify",
        "image_activate",
    ],
};

const PUSH_SETUP: Class = Class {
    name: "Push setup",
    attributes: &[
        "logical_name",
        "push_object_list",
        "send_destination_and_method",
        "communication_window",
        "randomisation_start_interval",
        "number_of_retries",
        "repetition_delay",
    ],
    methods: &["push"],
};

const SECURITY_SETUP: Class = Class {
    name: "Security setup",
    attributes: &[
        "logical_name",
        "security_policy",
        "security_suite",
        "client_system_title",
        "server_system_title",
    ],
    methods: &["security_activate", "key_transfer"],
};

/// The class of this number, if it is one of these.
pub fn management_class(number: u16) -> Option<Class>
    ensures { option_map names_of result ≡ class_in management_classes number }
{
    match number {
        12 => Some(ASSOCIATION_SN),
        15 => Some(ASSOCIATION_LN),
        17 => Some(SAP_ASSIGNMENT),
        18 => Some(IMAGE_TRANSFER),
        40 => Some(PUSH_SETUP),
        64 => Some(SECURITY_SETUP),
        _ => None,
    }
}
