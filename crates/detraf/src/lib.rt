// The amounts of a line, and the writer of the DETRAF file.
#![tactic(auto)]

pub mod amounts;
mod field;
pub mod file;
pub mod line;
pub mod totals;
