// Rows with a key order and a join, what a store of them means, and the rows of a statement: lines and days.
#![tactic(auto)]

pub mod day;
pub mod line;
pub mod row;
pub mod store;
pub mod traffic;
