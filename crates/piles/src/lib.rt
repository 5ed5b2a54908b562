// The stores that rows may be kept in, for programs: the memory at the bottom is lent from the heap, which no library
// below touches, and the layers are piled on it.
#![tactic(auto)]

mod memory;
pub mod pile;
pub mod rows;
pub mod user;
