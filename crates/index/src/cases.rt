ghost use Rattle.index.specs.Cases.{CasesHold};

/// The worked cases follow from the rules: each list of calls says what its case states.
#[tactic(auto, using(crate::proofs::Worked::cases_hold))]
pub fn worked_cases()
    ensures { CasesHold }
{}
