// The listing of document 01: a plan in numbers (`rows::list_plan`), or a refusal (`refusals::list_refusal`), printed as key=value lines into lent bytes,
// and planlist's input split into its pages (`pages`).
//
// The contracts cite paper's listing; what is written is that listing, and all other bytes of the room stay.
#![tactic(auto)]

pub mod elements;
pub mod lines;
pub mod pages;
pub mod refusals;
pub mod rows;
