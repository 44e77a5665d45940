// Reading a call's pages: whether the call is well made (`call`), the numbers of its pages (`pages`), the answer that is given (`answer`), the pages
// on a tape (`taping`) and joined (`joining`), one page by itself (`alone`), and the one public function `read` (`reading`).
//
// The contracts cite the definitions of the crate `paper`, and those of specs/ where code goes by other numbers. `specs/Promise.antt` is the promise of `read`.
#![tactic(auto)]

pub mod alone;
pub mod answer;
pub mod call;
pub mod joining;
pub mod pages;
pub mod reading;
pub mod taping;
