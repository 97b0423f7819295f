// Runs of weak alternating parity automata, and the word game that decides whether one accepts: the definitions in specs/, and
// what is proved about every automaton and every repeating word. The functions below do nothing; the contract of each is a theorem.
#![tactic(auto)]

mod place;

ghost use Rattle.runs.specs.Accepting.{Accepting};
ghost use Rattle.runs.specs.Step.{StepIsRest};
ghost use Rattle.runs.specs.Turning.{Turning};
ghost use Rattle.runs.specs.WordBounds.{WordBounds};

pub use place::WordPlace;

// Player 0 wins the word game from a state exactly if the automaton has an accepting run on the word from there.
pub fn accepting()
    ensures { Accepting }
{}

// The turned automaton accepts exactly what the automaton does not.
pub fn turning()
    ensures { Turning }
{}

// The word game of a word with at most 64 letters is one that an arena may mean.
pub fn word_bounds()
    ensures { WordBounds }
{}

// What `step` answers is not empty, and holds the letters of the word from the one asked for on.
pub fn step_is_rest()
    ensures { StepIsRest }
{}
