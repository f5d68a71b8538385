ghost use Rattle.std.specs.Prelude.{◌≡◌, ◌↔◌, ℕ, List, IfSome, MatchOption, IsTrue};
ghost use Rattle.fetch_uri.specs.Address.{UriIs, IsUri};

use crate::parts::{behind_scheme, is_host, is_path, read_port, split_path};

/// The longest URI, in bytes.
pub const URI_LIMIT: usize = 1_024;

/// The longest host, in bytes.
pub const HOST_LIMIT: usize = 255;

/// Where a payload is fetched from.
#[derive(Clone, Copy, Debug, Eq, PartialEq)]
pub struct Uri<'a> {
    /// The name or the dotted address of the host, 1 to 255 bytes.
    pub host: &'a str,
    /// The port, above 0.
    pub port: u16,
    /// What is asked of the host, with its first `/`.
    pub path: &'a str,
}

/// Reads the address of a payload. The host and the path lie in the text, and no memory is taken. The
/// answer is `None` where the text is no such address; a text is one at most.
pub fn read_uri(text: &str) -> Option<Uri<'_>>
    ensures found { IfSome result (λ u. UriIs text.now u.host.now u.port u.path.now) }
    ensures only { (host path : List ℕ) (port : ℕ) → UriIs text.now host port path
        → MatchOption result ⊥ (λ u. (u.host.now ≡ host) × (u.port ≡ port) × (u.path.now ≡ path)) }
{
    if text.len() > URI_LIMIT {
        return None;
    }
    let rest = behind_scheme(text)?;
    let (host, rest) = rest.split_once(':')?;
    let (digits, path) = split_path(rest)?;
    let port = read_port(digits)?;
    if is_host(host) && is_path(path) {
        Some(Uri { host, port, path })
    } else {
        None
    }
}

/// Whether a text is the address of a payload.
pub fn is_uri(text: &str) -> bool
    ensures { IsTrue result ↔ IsUri text.now }
{
    read_uri(text).is_some()
}
