// Tests of words and acceptance.
#![tactic(auto)]

#[cfg(test)]
mod acceptance;
#[cfg(test)]
mod drafts;
#[cfg(test)]
mod steps;
