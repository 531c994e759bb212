//! Laws of every association. These functions need not be called: their contracts are the laws.

ghost use Rattle.dlms_association.specs.Run.{AnswersAreSaid, BlocksAreOfTheRequest};

/// The calls of an association, from a new one on, in any order and with any APDUs: each answer is what the APDUs say that were taken
/// since the last request, and nothing else.
pub fn answers_are_said()
    ensures { AnswersAreSaid }
{}

/// In such calls the blocks that go out are those of the encoding of the value in the last request; `dlms_blocks` says that its blocks,
/// joined, are all of it once the last one has gone.
pub fn blocks_are_of_the_request()
    ensures { BlocksAreOfTheRequest }
{}
