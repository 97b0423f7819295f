// The judgement of two drafts, with all that is promised of drafts, words and games.
#![tactic(auto)]

mod judging;

pub use judging::judge;
