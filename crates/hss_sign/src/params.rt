ghost use Rattle.std.specs.Prelude.{◌≡◌, ◌↔◌, ◌^◌, ◌≤◌, IsTrue};
ghost use Rattle.hss_sign.specs.Params.{IsProperParams, lms_type, ots_params, ots_type};
ghost use Rattle.lms_core.specs.Parameters.{IsOtsRow};

use lms_core::OtsParams;

/// The parameters of an HSS key (RFC 8554, section 6): all its trees have the same types.
#[derive(Clone, Copy, Debug, Eq, PartialEq)]
pub struct KeyParams {
    /// How many levels of trees there are.
    pub levels: u32,
    /// The height of each tree: it has two to this power leaves (RFC 8554, section 5.1).
    pub height: u32,
    /// The Winternitz parameter w: how many bits one digit of a hash has (RFC 8554, section 4.1).
    pub width: u32,
}

impl KeyParams {
    /// Whether a key may have these parameters: 1 or 2 levels, height 5 or 10, width 4 or 8.
    pub fn is_proper(&self) -> bool
        ensures { IsTrue result ↔ IsProperParams self.now }
    {
        matches!(self.levels, 1 | 2) && matches!(self.height, 5 | 10) && matches!(self.width, 4 | 8)
    }

    /// The registered number of the trees' LMS type.
    pub(crate) fn lms_type(&self) -> u32
        ensures { result ≡ lms_type self.now }
    {
        if self.height == 5 { 5 } else { 6 }
    }

    /// The registered number of the LM-OTS type.
    pub(crate) fn ots_type(&self) -> u32
        ensures { result ≡ ots_type self.now }
    {
        if self.width == 4 { 3 } else { 4 }
    }

    /// The parameters of that LM-OTS type.
    pub(crate) fn ots(&self) -> OtsParams
        ensures value { result ≡ ots_params self.now }
        ensures row { IsOtsRow result }
        ensures few { result.p ≤ 67 }
    {
        if self.width == 4 {
            OtsParams { w: 4, p: 67, ls: 4 }
        } else {
            OtsParams { w: 8, p: 34, ls: 0 }
        }
    }

    /// How many leaves a tree has.
    pub(crate) fn leaves(&self) -> u32
        requires { IsProperParams self.now }
        ensures count { result ≡ 2 ^ self.now.height }
        ensures few { result ≤ 1024 }
    {
        1 << self.height
    }
}
