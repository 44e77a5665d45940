// Writing: a plan in numbers to its fresh pages, or to the one refusal that document 01 has for it. The spelling of rows and pages (`spelling`), the sizes of rows
// (`measure`), the cut (`cut`), the answer that is given (`answer`), and the one public function `write` (`writing`).
//
// The contracts cite the definitions of the crate `paper`, and those of specs/ where code goes by other numbers. `specs/Promise.antt` is the promise of `write`.
#![tactic(auto)]

pub mod answer;
pub mod cut;
pub mod measure;
pub mod spelling;
pub mod tags;
pub mod writing;
