// What the programs share: reading the agreement, a named file, the reference month and the records, and telling why a
// file is refused.
#![tactic(auto)]

pub mod agreements;
pub mod files;
pub mod input;
pub mod refusals;
