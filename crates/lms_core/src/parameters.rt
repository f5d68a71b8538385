//! The parameter sets of LM-OTS and LMS.

ghost use Rattle.std.specs.Prelude.{◌≡◌, IfSome};
ghost use Rattle.lms_core.specs.Parameters.{IsHeight, IsOtsRow, lms_table, ots_table};

/// The parameters of an LM-OTS type (RFC 8554, 4.1).
#[derive(Clone, Copy, Debug, PartialEq, Eq)]
pub struct OtsParams {
    /// The bits of a digit.
    pub w: u32,
    /// The number of chains.
    pub p: u32,
    /// How far the checksum is shifted to the left.
    pub ls: u32,
}

/// The parameters of an LM-OTS type by its registered number, 1 to 4 (RFC 8554, 4.1 and 8).
/// `None` comes for every other number.
pub fn ots_of(code: u32) -> Option<OtsParams>
    ensures table { result ≡ ots_table code }
    ensures row { IfSome result (λ params. IsOtsRow params) }
{
    match code {
        1 => Some(OtsParams {
            w: 1,
            p: 265,
            ls: 7,
        }),
        2 => Some(OtsParams {
            w: 2,
            p: 133,
            ls: 6,
        }),
        3 => Some(OtsParams { w: 4, p: 67, ls: 4 }),
        4 => Some(OtsParams { w: 8, p: 34, ls: 0 }),
        _ => None,
    }
}

/// The height of an LMS type's tree by its registered number, 5 to 9 (RFC 8554, 5.1 and 8).
/// `None` comes for every other number.
pub fn lms_of(code: u32) -> Option<u32>
    ensures table { result ≡ lms_table code }
    ensures height { IfSome result (λ height. IsHeight height) }
{
    match code {
        5 => Some(5),
        6 => Some(10),
        7 => Some(15),
        8 => Some(20),
        9 => Some(25),
        _ => None,
    }
}
