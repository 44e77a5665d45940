// Markup: where a page stops being well-formed, its tags and their attributes one at a time, and what a value's bytes stand for.
#![tactic(auto)]

pub mod scan;
mod tables;
pub mod values;
pub mod walk;
