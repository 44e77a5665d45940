// The quick way through a page: through the attributes of a tag, and through the tags, onto the tape.
#![tactic(auto)]

pub mod attrs;
pub mod fits;
mod letters;
pub mod names;
pub mod pages;
pub mod tags;
pub mod take;
