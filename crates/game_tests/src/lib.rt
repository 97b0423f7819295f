// Tests of arenas and solve, apart from their crates, so that those are proved once.
#![tactic(auto)]

#[cfg(test)]
mod bytes;
#[cfg(test)]
mod questions;
#[cfg(test)]
mod refusals;
#[cfg(test)]
mod solving;
