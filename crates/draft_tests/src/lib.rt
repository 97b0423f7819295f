// Tests of drafts: refusals in their order, limits, and the faults of loading.
#![tactic(auto)]

mod calls;
mod files;
