use std::fmt;

/// What a trusted key may sign.
#[derive(Clone, Copy, Debug, Eq, PartialEq)]
pub enum Role {
    /// Messages to the device.
    Manager,
    /// Manifests.
    Author,
}

impl fmt::Display for Role {
    ghost use Rattle.std.specs.Prelude.{Some};
    ghost use Rattle.trust_anchors.specs.Printing.{name};

    ghost output = { λ role. Some (name role) };

    fn fmt<W: fmt::Write>(&self, f: &mut fmt::Formatter<W>) -> fmt::Result {
        match self {
            Role::Manager => write!(f, "manager"),
            Role::Author => write!(f, "author"),
        }
    }
}
