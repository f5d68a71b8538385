// The host and the port that a request names.
ghost use Rattle.std.specs.Prelude.{◌≡◌, ◌≤◌, ◌++◌, codes, decimal, IfOk};
ghost use Rattle.fetch_uri.specs.Address.{IsHost};
ghost use Rattle.http_wire.specs.Sending.{IsAuthority};

use base_types::{OrMemory, Utf8};
use std::alloc::Global;

/// The host and the port of an address with the colon between them, as a request names them (RFC 9110,
/// section 7.2). Refused for want of memory alone.
pub fn authority_of(alloc: Global, host: &str, port: u16) -> OrMemory<Utf8>
    requires host { IsHost host.now }
    requires port { 1 ≤ port }
    ensures spelled { IfOk result (λ it. it ≡ host.now ++ codes ":" ++ decimal port) }
    ensures authority { IfOk result IsAuthority }
{
    let text = format!(in alloc; "{host}:{port}")?;
    Ok(Utf8::from_string(text))
}
