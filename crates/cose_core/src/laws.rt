ghost use Rattle.cose_core.specs.Law.{OneEnvelope, OneKey};

/// Each list of bytes is one COSE_Sign1 or has one refusal, and never both; and the same of COSE_Key.
pub fn exactly_one()
    ensures envelope { OneEnvelope }
    ensures key { OneKey }
{}
