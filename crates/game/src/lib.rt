// Solves any arena: who wins each vertex, and by which move.
#![tactic(auto)]

mod moves;
mod outcome;
mod ranks;
mod solver;
mod table;

pub use outcome::{BLANK, Outcome};
pub use solver::solve;
