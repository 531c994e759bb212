//! What holds of all requests and responses. Nobody needs to call these functions: their contracts are the laws.

ghost use Rattle.dlms_apdu.specs.Laws.{ReadsRequests, ReadsResponses, ReadsWrittenRequests, ReadsWrittenResponses, HasOneRequest, HasOneResponse, TellsWhatFollowsARequest, TellsWhatFollowsAResponse, KeepsRefusingRequests, KeepsRefusingResponses, TellsBeginningsOfRequests, TellsBeginningsOfResponses};

/// Reading from left to right returns a request exactly if the bytes are a spelling of it.
pub fn reads_requests()
    ensures { ReadsRequests }
{}

/// The same of responses.
pub fn reads_responses()
    ensures { ReadsResponses }
{}

/// No bytes are the spellings of two requests.
pub fn has_one_request()
    ensures { HasOneRequest }
{}

/// No bytes are the spellings of two responses.
pub fn has_one_response()
    ensures { HasOneResponse }
{}

/// The canonical spelling of a request is read again.
pub fn reads_written_requests()
    ensures { ReadsWrittenRequests }
{}

/// The canonical spelling of a response is read again.
pub fn reads_written_responses()
    ensures { ReadsWrittenResponses }
{}

/// `Trailing` is reported exactly if a request is followed by more bytes.
pub fn tells_what_follows_a_request()
    ensures { TellsWhatFollowsARequest }
{}

/// The same of responses.
pub fn tells_what_follows_a_response()
    ensures { TellsWhatFollowsAResponse }
{}

/// `Choice` is final: no longer sequence that begins with these bytes is a request.
pub fn keeps_refusing_requests()
    ensures { KeepsRefusingRequests }
{}

/// The same of responses.
pub fn keeps_refusing_responses()
    ensures { KeepsRefusingResponses }
{}

/// A request that is cut short is refused as `Short`, or as `Data` if the cut is inside a value.
pub fn tells_beginnings_of_requests()
    ensures { TellsBeginningsOfRequests }
{}

/// The same of responses.
pub fn tells_beginnings_of_responses()
    ensures { TellsBeginningsOfResponses }
{}
