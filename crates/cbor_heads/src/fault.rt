use std::fmt;

/// What is wrong at a place. Each is named for the rule that is broken there.
#[derive(Clone, Copy, Debug, Eq, PartialEq)]
pub enum Why {
    /// The bytes end inside a head, or before it.
    CutHead,
    /// The bytes end inside a byte string or a text.
    CutBody,
    /// The additional information is 28 to 31: reserved, or of indefinite length.
    BadInfo,
    /// The argument fits a shorter head.
    LongForm,
    /// The text is not UTF-8.
    BadText,
    /// The key's encoding is not above that of the key before it.
    KeyOrder,
    /// A simple value other than false, true and null, or a floating-point number.
    BadSimple,
    /// The container stands inside 16 others.
    TooDeep,
    /// A byte behind the item where there is to be none.
    Extra,
}

impl fmt::Display for Why {
    ghost use Rattle.std.specs.Prelude.{Some};
    ghost use Rattle.cbor_heads.specs.Printing.{name};

    ghost output = { λ why. Some (name why) };

    fn fmt<W: fmt::Write>(&self, f: &mut fmt::Formatter<W>) -> fmt::Result {
        match self {
            Why::CutHead => write!(f, "CutHead"),
            Why::CutBody => write!(f, "CutBody"),
            Why::BadInfo => write!(f, "BadInfo"),
            Why::LongForm => write!(f, "LongForm"),
            Why::BadText => write!(f, "BadText"),
            Why::KeyOrder => write!(f, "KeyOrder"),
            Why::BadSimple => write!(f, "BadSimple"),
            Why::TooDeep => write!(f, "TooDeep"),
            Why::Extra => write!(f, "Extra"),
        }
    }
}

/// The first fault of some bytes, and how many bytes stand before its place.
///
/// It is printed as its cause, ` at ` and the place, as in `LongForm at 0`.
#[derive(Clone, Copy, Debug, Eq, PartialEq)]
pub struct Fault {
    pub at: usize,
    pub why: Why,
}

impl fmt::Display for Fault {
    ghost use Rattle.std.specs.Prelude.{Some};
    ghost use Rattle.cbor_heads.specs.Printing.{text};

    ghost output = { λ fault. Some (text fault) };

    fn fmt<W: fmt::Write>(&self, f: &mut fmt::Formatter<W>) -> fmt::Result {
        let why = self.why;
        let at = self.at;
        write!(f, "{why} at {at}")
    }
}
