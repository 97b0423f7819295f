// Drafts: weak alternating parity automata, built by calls or loaded from records.
#![tactic(auto)]

mod draft;
mod fault;
mod kind;
mod laws;
mod loading;
mod parts;
mod records;
mod start;

pub use draft::Draft;
pub use fault::{Layer, LoadFault};
pub use laws::turn_laws;
pub use loading::load;
pub use parts::{Node, State};
pub use start::Start;
