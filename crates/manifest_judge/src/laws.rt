ghost use Rattle.manifest_judge.specs.Law.{OneVerdict, WordsStay, PassesStay, NeedsAnAddress, AcceptedAreVerified, MadeAreSound};

use suit_engine::{done_stays, one_outcome};

/// A manifest has exactly one verdict.
pub fn one_verdict()
    ensures { OneVerdict }
{
    one_outcome();
}

/// A word that comes before anything is run is the verdict, whatever is fetched.
pub fn words_stay()
    ensures { WordsStay }
{}

/// A manifest that passes does so with the same row where more was fetched behind what it had.
pub fn passes_stay()
    ensures { PassesStay }
{
    done_stays();
}

/// What a manifest needs is the address of a payload, and nothing was fetched for it yet.
pub fn needs_an_address()
    ensures { NeedsAnAddress }
{
    suit_engine::needs_an_address();
}

/// A manifest that passes was verified under the anchors, raised its sequence number and matched its
/// digests, and no component that it lists belongs to another manifest.
pub fn accepted()
    ensures { AcceptedAreVerified }
{}

/// The row of a manifest that passes may be put among those of a device.
pub fn made_are_sound()
    ensures { MadeAreSound }
{}
