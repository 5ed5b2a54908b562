// Tariff books that are listed by hand, and a layer over any book.
#![tactic(auto)]

pub mod correlation;
pub mod faults;
mod fixed_list;
pub mod flat;
mod keyed;
pub mod layers;
