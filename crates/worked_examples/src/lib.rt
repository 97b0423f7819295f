// The worked examples, proved from the definitions as one fact.
#![tactic(auto)]

ghost use Rattle.worked_examples.specs.Worked.{Worked};

// The answers of all worked examples.
pub fn worked()
    ensures { Worked }
{}
