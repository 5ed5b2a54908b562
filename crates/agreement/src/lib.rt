// The agreement file between two carriers: its terms, and the tariff book that it holds.
#![tactic(auto)]

mod bodies;
pub mod book;
mod contents;
pub mod faults;
mod lookup;
pub mod parts;
pub mod reader;
mod rows;
mod tables;
