// The fields of a head that count: their values, the length that they say and the media type.
ghost use Rattle.std.specs.Prelude.{◌≡◌, ◌==◌, map, IsTrue};
ghost use Rattle.std.specs.Char.{is_ascii_digit};
ghost use Rattle.std.specs.List.{list_all, position};
ghost use Rattle.std.specs.Str.Parse.{digits_value};
ghost use Rattle.httparse.specs.Borrowed.{header_parts};
ghost use Rattle.http_wire.specs.Fields.{values, is_length, content_length, length_in, without_parameters};
ghost use Rattle.http_wire.specs.Found.{IsFound};

use httparse::Header;

/// How many fields a head may have.
pub const FIELDS_LIMIT: usize = 32;

/// What the Content-Length of a head says.
#[derive(Clone, Copy, Debug, Eq, PartialEq)]
pub enum BodyLength {
    Unsaid,
    /// The length in bytes.
    Said(u64),
    /// It is repeated, or it is no number of at most 18 digits.
    Bad,
}

/// The values that the fields of one name have.
#[derive(Clone, Copy, Debug)]
pub enum Values<'a> {
    Nowhere,
    Once(&'a [u8]),
    /// The first of several.
    Again(&'a [u8]),
}

/// The values of the fields of a name.
pub fn values_of<'a>(fields: &[Header<'a>], name: &str) -> Values<'a>
    ensures { IsFound (values name.now (map header_parts fields.now)) result }
{
    let mut found = None;
    for field in fields {
        if field.name.eq_ignore_ascii_case(name) {
            match found {
                None => found = Some(field.value),
                Some(first) => return Values::Again(first),
            }
        }
    }
    match found {
        Some(value) => Values::Once(value),
        None => Values::Nowhere,
    }
}

// Whether each byte is a digit.
fn are_digits(value: &[u8]) -> bool
    ensures { result ≡ list_all is_ascii_digit value.now }
{
    value.iter().all(|byte| byte.is_ascii_digit())
}

// Whether the value is 1 to 18 digits.
fn is_length(value: &[u8]) -> bool
    ensures { result ≡ is_length value.now }
{
    if value.is_empty() || value.len() > 18 {
        return false;
    }
    are_digits(value)
}

// The number that 1 to 18 digits write.
fn number_of(digits: &[u8]) -> u64
    requires { IsTrue (is_length digits.now) }
    ensures { result ≡ digits_value 10 digits.now }
{
    let mut number = 0;
    for digit in digits {
        number = number * 10 + u64::from(*digit - b'0');
    }
    number
}

/// What the fields say of the length of the body.
pub fn content_length(fields: &[Header<'_>]) -> BodyLength
    ensures { result ≡ content_length (map header_parts fields.now) }
{
    match values_of(fields, "content-length") {
        Values::Nowhere => BodyLength::Unsaid,
        Values::Once(value) if is_length(value) => BodyLength::Said(number_of(value)),
        Values::Once(_) | Values::Again(_) => BodyLength::Bad,
    }
}

// Where the parameters of a media type begin.
fn semicolon(value: &[u8]) -> Option<usize>
    ensures { result ≡ position (λ byte. byte == 59) value.now }
{
    value.iter().position(|byte| *byte == b';')
}

/// What stands before the parameters of a media type.
pub fn without_parameters(value: &[u8]) -> &[u8]
    ensures { result.now ≡ without_parameters value.now }
{
    match semicolon(value) {
        Some(end) => &value[..end],
        None => value,
    }
}
