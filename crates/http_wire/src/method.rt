/// What a request asks for: the two methods that are used (RFC 9110, sections 9.3.1 and 9.3.3).
#[derive(Clone, Copy, Debug, Eq, PartialEq)]
pub enum Method {
    Get,
    Post,
}
