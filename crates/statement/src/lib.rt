// The statement of a settlement: records taken, rated against a book and booked into two row stores.
#![tactic(auto)]

pub mod board;
pub mod faults;
pub mod joining;
pub mod posting;
pub mod statement;
