// Values with ranges: no value of these types lies outside its range. Each is made by `new`, which answers an Option:
// a number can only be out of range, so the error type that TryFrom asks for would say nothing more.
#![tactic(auto)]

pub mod calendar;
pub mod decimal;
pub mod labels;
pub mod rates;
pub mod terms;
mod text;
