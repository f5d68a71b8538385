ghost use Rattle.std.specs.Prelude.{◌≡◌};
ghost use Rattle.suit_engine.specs.Runs.{sequence_of};
ghost use Rattle.suit_engine.specs.Passes.{next};

use suit_commands::Command;
use suit_envelope::Plan;

/// The passes of a run, in their order: each of three sequences behind the shared one.
#[derive(Clone, Copy)]
pub(crate) enum Pass {
    SharedBeforeFetch,
    Fetch,
    SharedBeforeInstall,
    Install,
    SharedBeforeValidate,
    Validate,
}

impl Pass {
    /// The sequence that it runs.
    pub(crate) fn sequence(self, plan: &Plan) -> &[Command]
        ensures { result.now ≡ sequence_of plan.now self }
    {
        match self {
            Pass::Fetch => plan.fetch.as_slice(),
            Pass::Install => plan.install.as_slice(),
            Pass::Validate => plan.validate.as_slice(),
            _ => plan.shared.as_slice(),
        }
    }

    /// The pass behind it.
    pub(crate) fn next(self) -> Option<Pass>
        ensures { result ≡ next self }
    {
        match self {
            Pass::SharedBeforeFetch => Some(Pass::Fetch),
            Pass::Fetch => Some(Pass::SharedBeforeInstall),
            Pass::SharedBeforeInstall => Some(Pass::Install),
            Pass::Install => Some(Pass::SharedBeforeValidate),
            Pass::SharedBeforeValidate => Some(Pass::Validate),
            Pass::Validate => None,
        }
    }
}
