// Stores of rows.
#![tactic(auto)]

mod search;
pub mod table;
