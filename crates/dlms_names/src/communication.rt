//! Classes for local ports, modems, networks, and what else meters have (the Blue Book, IEC 62056-6-2).

ghost use Rattle.std.specs.Prelude.{◌≡◌, option_map};
ghost use Rattle.dlms_names.specs.Classes.{class_in, communication_classes};
ghost use Rattle.dlms_names.specs.ClassView.{names_of};

use crate::class::Class;

const IEC_LOCAL_PORT_SETUP: Class = Class {
    name: "IEC local port setup",
    attributes: &[
        "logical_name",
        "default_mode",
        "default_baud",
        "prop_baud",
        "response_time",
        "device_addr",
        "pass_p1",
        "pass_p2",
        "pass_w5",
    ],
    methods: &[],
};

const M_BUS_SLAVE_PORT_SETUP: Class = Class {
    name: "M-Bus slave port setup",
    attributes: &[
        "logical_name",
        "default_baud",
        "avail_baud",
        "addr_state",
        "bus_address",
    ],
    methods: &[],
};

const UTILITY_TABLES: Class = Class {
    name: "Utility tables",
    attributes: &["logical_name", "table_ID", "length", "buffer"],
    methods: &[],
};

const MODEM_CONFIGURATION: Class = Class {
    name: "Modem configuration",
    attributes: &[
        "logical_name",
        "comm_speed",
        "initialization_string",
        "modem_profile",
    ],
    methods: &[],
};

const AUTO_ANSWER: Class = Class {
    name: "Auto answer",
    attributes: &[
        "logical_name",
        "mode",
        "listening_window",
        "status",
        "number_of_calls",
        "number_of_rings",
        "list_of_allowed_callers",
    ],
    methods: &[],
};

const AUTO_CONNECT: Class = Class {
    name: "Auto connect",
    attributes: &[
        "logical_name",
        "mode",
        "repetitions",
        "repetition_delay",
        "calling_window",
        "destination_list",
    ],
    methods: &["connect"],
};

const IPV4_SETUP: Class = Class {
    name: "IPv4 setup",
    attributes: &[
        "logical_name",
        "DL_reference",
        "IP_address",
        "multicast_IP_address",
        "IP_options",
        "subnet_mask",
        "gateway_IP_address",
        "use_DHCP_flag",
        "primary_DNS_address",
        "secondary_DNS_address",
    ],
    methods: &[
        "add_mc_IP_address",
        "delete_mc_IP_address",
        "get_nbof_mc_IP_addresses",
    ],
};

const MAC_ADDRESS_SETUP: Class = Class {
    name: "MAC address setup",
    attributes: &["logical_name", "MAC_address"],
    methods: &[],
};

const PPP_SETUP: Class = Class {
    name: "PPP setup",
    attributes: &[
        "logical_name",
        "PHY_reference",
        "LCP_options",
        "IPCP_options",
        "PPP_authentication",
    ],
    methods: &[],
};

const GPRS_MODEM_SETUP: Class = Class {
    name: "GPRS modem setup",
    attributes: &["logical_name", "APN", "PIN_code", "quality_of_service"],
    methods: &[],
};

const GSM_DIAGNOSTIC: Class = Class {
    name: "GSM diagnostic",
    attributes: &[
        "logical_name",
        "operator",
        "status",
        "cs_attachment",
        "ps_status",
        "cell_info",
        "adjacent_cells",
        "capture_time",
    ],
    methods: &[],
};

const IPV6_SETUP: Class = Class {
    name: "IPv6 setup",
    attributes: &[
        "logical_name",
        "DL_reference",
        "address_config_mode",
        "unicast_IPv6_addresses",
        "multicast_IPv6_addresses",
        "gateway_IPv6_addresses",
        "primary_DNS_address",
        "secondary_DNS_address",
        "traffic_class",
        "neighbor_discovery_setup",
    ],
    methods: &["add_IPv6_address", "remove_IPv6_address"],
};

const COMPACT_DATA: Class = Class {
    name: "Compact data",
    attributes: &[
        "logical_name",
        "compact_buffer",
        "capture_objects",
        "template_id",
        "template_description",
        "capture_method",
    ],
    methods: &["reset", "capture"],
};

const STATUS_MAPPING: Class = Class {
    name: "Status mapping",
    attributes: &["logical_name", "status_word", "mapping_table"],
    methods: &[],
};

const PARAMETER_MONITOR: Class = Class {
    name: "Parameter monitor",
    attributes: &[
        "logical_name",
        "changed_parameter",
        "capture_time",
        "parameters",
    ],
    methods: &["add_parameter", "delete_parameter"],
};

const ARBITRATOR: Class = Class {
    name: "Arbitrator",
    attributes: &[
        "logical_name",
        "actions",
        "permissions_table",
        "weightings_table",
        "most_recent_requests_table",
        "last_outcome",
    ],
    methods: &["request_action", "reset"],
};

const M_BUS_CLIENT: Class = Class {
    name: "M-Bus client",
    attributes: &[
        "logical_name",
        "mbus_port_reference",
        "capture_definition",
        "capture_period",
        "primary_address",
        "identification_number",
        "manufacturer_id",
        "version",
        "device_type",
        "access_number",
        "status",
        "alarm",
        "configuration",
        "encryption_key_status",
    ],
    methods: &[
        "slave_install",
        "slave_deinstall",
        "capture",
        "reset_alarm",
        "synchronize_clock",
        "data_send",
        "set_encryption_key",
        "transfer_key",
    ],
};

/// The class of this number, if it is one of these.
pub fn communication_class(number: u16) -> Option<Class>
    ensures { option_map names_of result ≡ class_in communication_classes number }
{
    match number {
        19 => Some(IEC_LOCAL_PORT_SETUP),
        25 => Some(M_BUS_SLAVE_PORT_SETUP),
        26 => Some(UTILITY_TABLES),
        27 => Some(MODEM_CONFIGURATION),
        28 => Some(AUTO_ANSWER),
        29 => Some(AUTO_CONNECT),
        42 => Some(IPV4_SETUP),
        43 => Some(MAC_ADDRESS_SETUP),
        44 => Some(PPP_SETUP),
        45 => Some(GPRS_MODEM_SETUP),
        47 => Some(GSM_DIAGNOSTIC),
        48 => Some(IPV6_SETUP),
        62 => Some(COMPACT_DATA),
        63 => Some(STATUS_MAPPING),
        65 => Some(PARAMETER_MONITOR),
        68 => Some(ARBITRATOR),
        72 => Some(M_BUS_CLIENT),
        _ => None,
    }
}
