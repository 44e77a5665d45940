// Ask: the rows that hold a package number, found in the index of the rows. Every question first tests that the pairs are the index of these rows.
ghost use Rattle.std.specs.Prelude.{◌≡◌, ◌+◌, ◌*◌, ◌≤◌, ◌<◌, length, drop};
ghost use Rattle.paper.specs.Index.{index_of, same_pairs, pairs_from, held_at};
ghost use Rattle.room.specs.Laid.{laid};
ghost use Rattle.plan.specs.Numbers.{stride};
ghost use Rattle.index.specs.Pairs.{pair_at, pairs_in, in_place, rows_in, rows_of};
ghost use Rattle.index.specs.Answers.{Finds, replied, replied_into, reply_told, nth_told, list_after};

use crate::answer::{Held, Nth, Refusal};
use crate::build::{number_at, rows_lent};
use crate::pairs::{ahead_of, comes_before};
use plan::Plan;

// Where the pairs of a number stand in the index, and how many there are.
#[derive(Clone, Copy, PartialEq, Eq)]
pub struct Found {
    pub at: usize,
    pub count: usize,
}

// How many of the first n rows have a package number.
fn count_numbers(rows: &[u32], n: usize) -> usize
    requires { n * stride ≤ length rows.now }
    ensures { result ≡ length (pairs_from 1 (rows_in n rows.now)) }
{
    let mut count = 0;
    for i in 0..n {
        if number_at(rows, i) != 0 {
            count += 1;
        }
    }
    count
}

// Whether the row of pair i is one of the first n rows and holds the pair's number.
#[tactic(auto, using(crate::proofs::AskLaws::held_by))]
fn row_right(rows: &[u32], n: usize, index: &[u32], i: usize) -> bool
    requires { (n * stride ≤ length rows.now) × (2 * i + 1 < length index.now) }
    ensures { result ≡ held_at (rows_in n rows.now) (pair_at index.now i).number (pair_at index.now i).row }
{
    let number = index[2 * i];
    let row = index[2 * i + 1] as usize;
    number != 0 && 1 <= row && row <= n && number_at(rows, row - 1) == number
}

// Whether pair i comes behind the one before it, if there is one.
fn in_place(index: &[u32], i: usize) -> bool
    requires { 2 * i + 1 < length index.now }
    ensures { result ≡ in_place index.now i }
{
    i == 0 || comes_before(index, i - 1, index[2 * i], index[2 * i + 1])
}

// Whether the first `len` pairs are the index of the first n rows: as many as rows have a number, each with the number that its row holds, each behind the one
// before it. This goes once over the rows and once over the pairs.
pub fn is_index(rows: &[u32], n: usize, index: &[u32], len: usize) -> bool
    requires { (n * stride ≤ length rows.now) × (2 * len ≤ length index.now) }
    ensures { result ≡ same_pairs (pairs_in len index.now) (index_of (rows_in n rows.now)) }
{
    if count_numbers(rows, n) != len {
        return false;
    }
    for i in 0..len {
        if !row_right(rows, n, index, i) {
            return false;
        }
        if !in_place(index, i) {
            return false;
        }
    }
    true
}

// Finds a number in the index of rows: two searches, for the first pair of the number and for the first one behind them.
fn find(rows: &[u32], count: u32, index: &[u32], length: u32, number: u32) -> Result<Found, Refusal>
    ensures { Finds result (replied rows.now count index.now length number) index.now }
{
    if !rows_lent(rows, count) {
        return Err(Refusal::NoRoom);
    }
    let len = length as usize;
    if len > index.len() / 2 {
        return Err(Refusal::NoRoom);
    }
    if !is_index(rows, count as usize, index, len) {
        return Err(Refusal::OtherIndex);
    }
    let at = ahead_of(index, len, number, 0);
    let end = ahead_of(index, len, number, Plan::ROWS as u32 + 1);
    Ok(Found {
        at,
        count: end - at,
    })
}

// The first row that holds the number, and how many do; nothing where the number is not on the plan. The first `count` rows and the first `length` pairs are
// asked: 1 where there are not so many rows or pairs, or more rows than a plan has; then 20 where the pairs are not the index of the rows.
pub fn first(
    rows: &[u32],
    count: u32,
    index: &[u32],
    length: u32,
    number: u32,
) -> Result<Option<Held>, Refusal>
    ensures { result ≡ reply_told (replied rows.now count index.now length number) }
{
    let found = find(rows, count, index, length, number)?;
    if found.count == 0 {
        return Ok(None);
    }
    Ok(Some(Held {
        first: index[2 * found.at + 1],
        count: found.count as u32,
    }))
}

// The k-th of the rows that hold the number, k from 1.
pub fn nth(
    rows: &[u32],
    count: u32,
    index: &[u32],
    length: u32,
    number: u32,
    k: u32,
) -> Result<Nth, Refusal>
    ensures { result ≡ nth_told k (replied rows.now count index.now length number) }
{
    let found = find(rows, count, index, length, number)?;
    if found.count == 0 {
        return Ok(Nth::Absent);
    }
    if k < 1 || k as usize > found.count {
        return Ok(Nth::None);
    }
    Ok(Nth::Row(index[2 * (found.at + k as usize - 1) + 1]))
}

// Lays the rows of `count` pairs from pair `at` on at the beginning of the list. Behind them it stays as it was.
fn lay_rows(index: &[u32], at: usize, count: usize, list: &mut [u32])
    requires { (2 * (at + count) ≤ length index.now) × (count ≤ length list.old) }
    ensures { list.new ≡ laid list.old 0 (rows_of (pairs_in count (drop (2 * at) index.now))) }
{
    for k in 0..count {
        list[k] = index[2 * (at + k) + 1];
    }
}

// All rows that hold the number, laid into `list`, ascending; 1 also where the list has room for fewer than 256 rows. Behind them the list stays as it was, and
// where there are none it does so throughout.
pub fn all(
    rows: &[u32],
    count: u32,
    index: &[u32],
    length: u32,
    number: u32,
    list: &mut [u32],
) -> Result<Option<Held>, Refusal>
    ensures { (result ≡ reply_told (replied_into list.old rows.now count index.now length number))
        × (list.new ≡ list_after (replied_into list.old rows.now count index.now length number) list.old) }
{
    if list.len() < Plan::ROWS {
        return Err(Refusal::NoRoom);
    }
    let found = find(rows, count, index, length, number)?;
    if found.count == 0 {
        return Ok(None);
    }
    lay_rows(index, found.at, found.count, list);
    Ok(Some(Held {
        first: index[2 * found.at + 1],
        count: found.count as u32,
    }))
}
