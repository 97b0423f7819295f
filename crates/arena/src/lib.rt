// Arenas of weak parity games: the trait, and the two kinds that need no draft.
#![tactic(auto)]

mod grid;
mod interface;
mod mirror;
mod stored;

pub use grid::Grid;
pub use interface::Arena;
pub use mirror::Mirror;
pub use stored::{RecordNumber, Stored, StoredFault, ask, make};
