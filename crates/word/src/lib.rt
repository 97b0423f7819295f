// Repeating words: their letters, the word arena of a draft, and acceptance.
#![tactic(auto)]

mod accepting;
mod letters;
mod verdict;
mod word;

pub use accepting::accept;
pub use letters::Word;
pub use verdict::Verdict;
pub use word::{MOST_VERTICES, WordArena, ask, make};
