// The index of package numbers beside a plan's rows: pairs of a package number and a row, counted from 1, in a lent slice, two numbers to a pair, ascending by
// number, equal numbers by row. It is built for rows (`build`) and together with a plan (`reading`), and asked (`ask`); `pairs` has the search and the store.
//
// Nothing is required of a call: rows, counts and index may be any numbers. specs/Pairs.antt says which rows and pairs of document 02 numbers show.
#![tactic(auto)]

pub mod answer;
pub mod ask;
pub mod build;
pub mod pairs;
pub mod reading;
