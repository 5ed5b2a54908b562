// Stores that are images: bytes that the caller lends, with rows in their order of arrival.
#![tactic(auto)]

mod changes;
pub mod image;
mod scan;
