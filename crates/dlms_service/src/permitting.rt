//! Which requests an association permits.

ghost use Rattle.std.specs.Prelude.{◌≡◌, Ok};
ghost use Rattle.dlms_apdu.specs.Forms.{RequestForm};
ghost use Rattle.dlms_apdu.specs.Reading.{request_at};
ghost use Rattle.dlms_service.specs.Serves.{permits, permits_form as form_permitted};

use crate::association::Association;
use crate::stake::byte_at;
use dlms_acse::Conformance;

/// Whether both ends have what a form of a service is of, by the first two bytes of a request.
fn permits_form(association: Association, service: u8, form: u8) -> bool
    ensures { result ≡ form_permitted association service form }
{
    if service == 0xc0 {
        association.has(Conformance::GET)
    } else if service == 0xc1 && form == 1 {
        association.has(Conformance::SET)
    } else if service == 0xc1 {
        association.has(Conformance::SET) && association.has(Conformance::BLOCKS_WITH_SET)
    } else if form == 1 {
        association.has(Conformance::ACTION)
    } else {
        association.has(Conformance::ACTION) && association.has(Conformance::BLOCKS_WITH_ACTION)
    }
}

/// Whether both ends have what a request is of, whose bytes these are. No memory is needed to tell.
#[tactic(auto, using(crate::proofs::FirstBytes::permitted))]
pub fn permits(association: Association, request: &[u8]) -> bool
    ensures { (form : RequestForm) → request_at request.now ≡ Ok form
        → result ≡ permits association form }
{
    let service = byte_at(request, 0, 0);
    let form = byte_at(request, 1, 0);
    permits_form(association, service, form)
}
