// One month settled from its input: the reference month's line, then the records, in whatever pieces they come.
#![tactic(auto)]

pub mod month;
pub mod refusals;
pub mod settlement;
pub mod taker;
