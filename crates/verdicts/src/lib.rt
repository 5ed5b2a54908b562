// A declared file contested: a verdict for each detail line, and for each month whether it is contestable.
#![tactic(auto)]

pub mod contesting;
pub mod faults;
pub mod judging;
pub mod months;
pub mod verdict;
