//! The classes of objects, by their numbers.

ghost use Rattle.std.specs.Prelude.{◌≡◌, option_map};
ghost use Rattle.dlms_names.specs.Classes.{class_in, classes, setup_classes};
ghost use Rattle.dlms_names.specs.ClassView.{names_of};

use crate::class::Class;
use crate::communication::communication_class;
use crate::control::control_class;
use crate::exchange::exchange_class;
use crate::management::management_class;
use crate::measurement::measurement_class;

/// The class of this number, if it is one for an exchange of data.
fn setup_class(number: u16) -> Option<Class>
    ensures { option_map names_of result ≡ class_in setup_classes number }
{
    exchange_class(number).or(communication_class(number))
}

/// The class of this number (the Blue Book, class_id), if it is one of those that meters have most.
pub fn class_of(number: u16) -> Option<Class>
    ensures { option_map names_of result ≡ class_in classes number }
{
    measurement_class(number)
        .or(management_class(number))
        .or(control_class(number))
        .or(setup_class(number))
}
