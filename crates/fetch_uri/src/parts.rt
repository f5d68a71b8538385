ghost use Rattle.std.specs.Prelude.{◌≡◌, ◌≢◌, ◌↔◌, ◌≤◌, ◌<◌, ◌++◌, ℕ, List, length, slice_index, codes, decimal, IfSome, Some, MatchOption, IsTrue};
ghost use Rattle.fetch_uri.specs.Address.{is_host_byte, IsHost, IsPath};
ghost use Rattle.fetch_uri.specs.Parts.{LacksByte};

use crate::uri::HOST_LIMIT;

/// What stands behind the scheme.
pub fn behind_scheme(text: &str) -> Option<&str>
    ensures { MatchOption result ((rest : List ℕ) → text.now ≢ codes "http://" ++ rest) (λ x. text.now ≡ codes "http://" ++ x.now) }
{
    text.strip_prefix("http://")
}

/// What stands in front of the first slash, and the text from it on.
pub fn split_path(text: &str) -> Option<(&str, &str)>
    ensures { MatchOption result (LacksByte 47 text.now) (λ x. (text.now ≡ x.0.now ++ x.1.now) × (slice_index x.1.now 0 ≡ 47) × LacksByte 47 x.0.now) }
{
    let slash = text.find('/')?;
    Some(text.split_at(slash))
}

/// Whether a digit other than 0 leads.
fn leads_above_zero(digits: &str) -> bool
    ensures { IsTrue result ↔ ((49 ≤ slice_index digits.now 0) × (slice_index digits.now 0 ≤ 57)) }
{
    matches!(digits.as_bytes(), [b'1'..=b'9', ..])
}

/// The number from 1 to 65,535 that the digits write, where no zero leads.
pub fn read_port(digits: &str) -> Option<u16>
    ensures found { IfSome result (λ port. (digits.now ≡ decimal port) × (1 ≤ port)) }
    ensures only { (port : ℕ) → 1 ≤ port → port ≤ 65535 → digits.now ≡ decimal port → result ≡ Some port }
{
    if leads_above_zero(digits) {
        digits.parse().ok()
    } else {
        None
    }
}

/// Whether a byte may stand in a host.
fn may_be_in_host(byte: u8) -> bool
    ensures { result ≡ is_host_byte byte }
{
    byte.is_ascii_alphanumeric() || byte == b'-' || byte == b'.'
}

/// Whether a text is a host: its length and its bytes.
pub fn is_host(text: &str) -> bool
    ensures { IsTrue result ↔ IsHost text.now }
{
    !text.is_empty() && text.len() <= HOST_LIMIT && text.bytes().all(may_be_in_host)
}

/// Whether a text is a path: its first byte and its bytes.
pub fn is_path(text: &str) -> bool
    ensures { IsTrue result ↔ IsPath text.now }
{
    text.starts_with('/') && text.bytes().all(|byte| byte.is_ascii_graphic())
}
