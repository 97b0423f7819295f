// For benchmarks and for tests from other languages: the calls over numbers and bytes. No part of the product; nothing is
// promised of the encodings.
#![tactic(auto)]

mod drafts;
mod files;
mod games;

pub use drafts::{colvaje_testing_accept, colvaje_testing_contain};
pub use files::colvaje_testing_load;
pub use games::colvaje_testing_solve;
