// Containment of one automaton in another by a game on pairs: the definitions in specs/, and what is proved about every two
// automata. The functions below do nothing; the contract of each is a theorem.
#![tactic(auto)]

mod place;

ghost use Rattle.inclusion.specs.Exchange.{Exchange};
ghost use Rattle.inclusion.specs.PairBounds.{PairBounds};
ghost use Rattle.inclusion.specs.Safe.{Safe};
ghost use Rattle.inclusion.specs.Stratified.{StratifiedTested};

pub use place::PairPlace;

// The test of stratification holds exactly of the stratified automata.
pub fn stratified_tested()
    ensures { StratifiedTested }
{}

// Where player 0 wins a pair of states, the second automaton accepts every repeating word that the first accepts.
pub fn safe()
    ensures { Safe }
{}

// Both automata turned and exchanged: the same questions get the same answers, with the same winner.
pub fn exchange()
    ensures { Exchange }
{}

// The pair game is one that an arena may mean.
pub fn pair_bounds()
    ensures { PairBounds }
{}
