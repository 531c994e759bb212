//! Classes for setting up data exchange (the Blue Book, IEC 62056-6-2).

ghost use Rattle.std.specs.Prelude.{◌≡◌, option_map};
ghost use Rattle.dlms_names.specs.Classes.{class_in, exchange_classes};
ghost use Rattle.dlms_names.specs.ClassView.{names_of};

use crate::class::Class;

const IEC_HDLC_SETUP: Class = Class {
    name: "IEC HDLC setup",
    attributes: &[
        "logical_name",
        "comm_speed",
        "window_size_transmit",
        "window_size_receive",
        "max_info_field_length_transmit",
        "max_info_field_length_receive",
        "inter_octet_time_out",
        "inactivity_time_out",
        "device_address",
    ],
    methods: &[],
};

const TCP_UDP_SETUP: Class = Class {
    name: "TCP-UDP setup",
    attributes: &[
        "logical_name",
        "TCP-UDP_port",
        "IP_reference",
        "MSS",
        "nb_of_sim_conn",
        "inactivity_time_out",
    ],
    methods: &[],
};

/// The class of this number, if it is one of these.
pub fn exchange_class(number: u16) -> Option<Class>
    ensures { option_map names_of result ≡ class_in exchange_classes number }
{
    match number {
        23 => Some(IEC_HDLC_SETUP),
        41 => Some(TCP_UDP_SETUP),
        _ => None,
    }
}
