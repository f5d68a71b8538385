// Whether an agent can talk to who asks.
ghost use Rattle.std.specs.Prelude.{◌≡◌, ◌==◌};
ghost use Rattle.agent_replies.specs.Question.{is_negative, knows_version, is_known_operation, knows_suite, is_known_profile, knows_profile, asks_evidence, asks_manifests};
ghost use Rattle.std.specs.List.{list_any};

use base_types::List;
use cbor_core::Item;
use teep_messages::{Operation, Profile, Suite};

// The tag of a COSE_Sign1 (RFC 9052, section 4.2).
const SIGN1_TAG: u64 = 18;

// SHA-256 is -16 (RFC 9054, section 2.1), that is -1-15.
const SHA_256: u64 = 15;

// HSS-LMS is -46 (RFC 8778, section 5), that is -1-45.
const HSS_LMS: u64 = 45;

// Whether an item is the negative integer -1-n.
fn is_negative(n: u64, item: &Item) -> bool
    ensures { result ≡ is_negative n item.now }
{
    match item {
        Item::Negative(m) => *m == n,
        _ => false,
    }
}

// Whether version 0 is among versions.
fn has_version_0(versions: &List<u64>) -> bool
    ensures { result ≡ list_any (λ version. version == 0) versions.now }
{
    versions.as_slice().iter().any(|version| *version == 0)
}

/// Whether version 0 is among the versions that are named, or none are named.
pub fn knows_version(versions: &Option<List<u64>>) -> bool
    ensures { result ≡ knows_version versions.now }
{
    match versions {
        None => true,
        Some(versions) => has_version_0(versions),
    }
}

// Whether an operation is a COSE_Sign1 with HSS-LMS.
fn is_known_operation(operation: &Operation) -> bool
    ensures { result ≡ is_known_operation operation.now }
{
    operation.tag == SIGN1_TAG && is_negative(HSS_LMS, &operation.alg)
}

// Whether a suite has such an operation.
fn has_known_operation(suite: &Suite) -> bool
    ensures { result ≡ list_any is_known_operation suite.now }
{
    suite
        .as_slice()
        .iter()
        .any(|operation| is_known_operation(operation))
}

/// Whether a suite with such an operation is offered.
pub fn knows_suite(suites: &[Suite]) -> bool
    ensures { result ≡ knows_suite suites.now }
{
    suites.iter().any(|suite| has_known_operation(suite))
}

// Whether a profile begins with SHA-256 and HSS-LMS.
fn is_known_profile(profile: &Profile) -> bool
    ensures { result ≡ is_known_profile profile.now }
{
    match profile.as_slice() {
        [digest, signature, ..] => is_negative(SHA_256, digest) && is_negative(HSS_LMS, signature),
        _ => false,
    }
}

/// Whether such a profile is offered.
pub fn knows_profile(profiles: &[Profile]) -> bool
    ensures { result ≡ knows_profile profiles.now }
{
    profiles.iter().any(|profile| is_known_profile(profile))
}

/// Whether evidence is asked for.
pub fn asks_evidence(items: u64) -> bool
    ensures { result ≡ asks_evidence items }
{
    items % 2 == 1
}

/// Whether the manifests are asked for.
pub fn asks_manifests(items: u64) -> bool
    ensures { result ≡ asks_manifests items }
{
    items / 2 % 2 == 1
}
