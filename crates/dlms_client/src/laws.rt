//! Laws of every client, over any carrier. Nobody needs to call these functions: their contracts are the laws.

ghost use Rattle.dlms_client.specs.Run.{AnswersAreSaid, BlocksAreOfTheRequest, NoOtherIsHandedUp, RunsLead};
ghost use Rattle.dlms_carrier.specs.Carrying.{meaning};

use dlms_association::laws;
use dlms_carrier::Carrier;

/// A run of a client is a run of its carrier and a run of its association: each APDU that the carrier hands up is passed to the
/// association, each that the association sends is given to the carrier, and its requests are the client's, all in their order.
pub fn runs_lead<C: Carrier>()
    ensures { RunsLead (meaning C.steps C.out_of C.apdu_of C.is_waiting) }
{}

/// The carriers of a route hand an APDU up only as they read octets, so each one that they hand up is passed to the association.
pub fn no_other_is_handed_up()
    ensures { NoOtherIsHandedUp }
{}

/// In a run of a new client each answer is what the APDUs say that were taken since the last request, and nothing else.
pub fn answers_are_said<C: Carrier>()
    ensures { AnswersAreSaid (meaning C.steps C.out_of C.apdu_of C.is_waiting) }
{
    laws::answers_are_said();
}

/// In a run of a new client the blocks sent are those of the encoding of the value in the last request; `dlms_blocks` says that its
/// blocks, joined, are all of it once the last one has gone.
pub fn blocks_are_of_the_request<C: Carrier>()
    ensures { BlocksAreOfTheRequest (meaning C.steps C.out_of C.apdu_of C.is_waiting) }
{
    laws::blocks_are_of_the_request();
}
