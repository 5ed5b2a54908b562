// Images of rows as bytes: the format of a row of each type, and the check of a whole image.
#![tactic(auto)]

pub mod day;
pub mod faults;
mod fields;
pub mod format;
pub mod line;
pub mod row;
