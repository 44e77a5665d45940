// The collector of single pages: what it keeps (`store`), a page added (`adding`), the numbers that are missing (`lacks`), and the plan of its pages
// (`reading`).
//
// Nothing is required of a collector: every function answers for any numbers in its fields. specs/Keeping.antt says what is asked of such a value,
// specs/Shows.antt which collector of document 01 it shows.
#![tactic(auto)]

pub mod adding;
pub mod lacks;
pub mod reading;
pub mod store;
