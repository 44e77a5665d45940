// One page: the attributes of each tag by the fields of its element, and whether the page is refused, with which number and where.
#![tactic(auto)]

pub mod flaws;
pub mod found;
pub mod judge;
pub mod state;
