// Laws of the calls. The function below does nothing; its contract is a theorem.
ghost use Rattle.draft.specs.TurnLaws.{TurnLaws};

// Two turns add 2 to every priority and change nothing else; a turn keeps completeness.
pub fn turn_laws()
    ensures { TurnLaws }
{}
