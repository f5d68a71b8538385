ghost use Rattle.device_reports.specs.Law.{AuditsAreWhole, FindingsAreExact, ListingsAscend};

/// Of a state that a device may be in, each component stands in the audit once, in ascending order of the
/// identifiers, and the numbers of the last line are those of all components and of the bad ones.
pub fn audits_are_whole()
    ensures { AuditsAreWhole }
{}

/// An audit finds an image good exactly where a digest is kept and is that of the image, bad exactly
/// where one is kept and is not, and unknown exactly where none is kept.
pub fn findings_are_exact()
    ensures { FindingsAreExact }
{}

/// A state for which an image stands, as that of each store does, has its manifests in ascending order of
/// their identifiers and the components of each in order too. So a listing has them.
pub fn listings_ascend()
    ensures { ListingsAscend }
{}
