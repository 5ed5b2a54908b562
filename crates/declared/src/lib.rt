// The reader of declared DETRAF files, and the writer of their lines.
#![tactic(auto)]

mod checks;
mod columns;
pub mod details;
pub mod faults;
pub mod file;
mod forms;
mod keys;
pub mod lines;
mod writer;
