// Tollgilt: the pages of a medication plan, listed and written afresh, a package number found in them, and their printed cells. `border` has the functions that
// programs in C and Rust call, `list`, `fresh`, `find` and `cells` the same for code in Rattle, `input` what the programs planlist,
// planfresh, planfind and plancell print. `refused` has the refusals that they all give.
//
// No function that a program calls asks anything of its caller. Its contract determines the answer and every lent byte and number afterwards, for any input.
#![tactic(auto)]

pub mod border;
pub mod cells;
pub mod find;
pub mod fresh;
pub mod input;
pub mod list;
pub mod refused;
