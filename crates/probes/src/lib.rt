// What the trial programs share.
#![tactic(auto)]

pub mod agreements;
pub mod pairs;
