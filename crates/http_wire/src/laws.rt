ghost use Rattle.http_wire.specs.Laws.{OneRequest, OneResponse, WrittenRequests, WrittenResponses};

/// An input has exactly one answer of `read_request` that follows from it, and is left in one way by it.
pub fn one_request()
    ensures { OneRequest }
{}

/// An input has exactly one answer of `read_response` that follows from it, and is left in one way by it.
pub fn one_response()
    ensures { OneResponse }
{}

/// What `write_request` writes is what `read_request` takes at the other side, with the same body or path
/// and no byte behind it, where the path is served and the body has at most 2^24 bytes.
pub fn written_requests_are_read()
    ensures { WrittenRequests }
{}

/// What `write_response` writes is what `read_response` takes at the other side, with the same status,
/// media type and body and no byte behind it, where the body is within the limit and its length has at
/// most 18 digits. A response without a body shows no media type.
pub fn written_responses_are_read()
    ensures { WrittenResponses }
{}
