// A page as a tape: its elements in order, each with where the values of its fields lie. `exact` lays one for a page that is known to be a sheet.
#![tactic(auto)]

pub mod exact;
pub mod names;
pub mod values;
