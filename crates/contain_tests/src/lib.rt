// Tests of containment and of the call for C.
#![tactic(auto)]

#[cfg(test)]
mod drafts;
#[cfg(test)]
mod host;
#[cfg(test)]
mod questions;
#[cfg(test)]
mod verdicts;
