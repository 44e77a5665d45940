// The fields of document 01 in code: the table of elements and fields (`table`, `places`, `lookup`, `names`), and whether a value keeps its
// field's rule (`rules`, over `sets`, `dates`, `dose`, `package_number` and `numbers`).
//
// The contracts cite the definitions of the crate `paper`, and for the numbers that code goes by `specs/` of this crate.
#![tactic(auto)]

pub mod dates;
pub mod dose;
pub mod lookup;
pub mod names;
pub mod numbers;
pub mod package_number;
pub mod places;
pub mod rules;
pub mod sets;
pub mod table;
