ghost use Rattle.device_state.specs.Law.{ChangesKeepOrder, HeadsWeighTheSame};

/// Each change leaves the manifests in ascending order and their components in order, and manifests in
/// that order, put one by one into an empty state, are these manifests.
pub fn changes_keep_order()
    ensures { ChangesKeepOrder }
{}

/// Manifests without the bytes of their components weigh what they weigh with them.
pub fn heads_weigh_the_same()
    ensures { HeadsWeighTheSame }
{}
