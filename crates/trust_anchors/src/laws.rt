ghost use Rattle.trust_anchors.specs.Law.{OneAnchors};

/// Each item is one set of anchors or has one refusal, and never both.
pub fn exactly_one()
    ensures anchors { OneAnchors }
{}
