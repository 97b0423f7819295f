// Containment of one draft in another, by a game on pairs of their states and nodes.
#![tactic(auto)]

mod containing;
mod fault;
mod pair;
mod strata;

pub use containing::contain;
pub use fault::{ContainFault, Containment, Which};
pub use pair::{MOST_VERTICES, PairArena, ask, make};
pub use strata::stratified;
