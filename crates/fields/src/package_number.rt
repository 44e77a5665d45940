// Package numbers: 1 to 8 digits, not zero, padded on the left to eight, the last a check digit.
ghost use Rattle.std.specs.Prelude.{◌≡◌, ◌-◌, ◌≤◌, length};
ghost use Rattle.paper.specs.Rules.{nth_digit, padded, checks, is_package};

use crate::numbers::digit;
use crate::sets::{DIGIT, above_zero, all_in};
use room::byte_or;

// How many zeros are put before a value to make eight digits of it.
fn zeros_before(v: &[u8]) -> usize
    ensures { result ≡ 8 - length v.now }
{
    8usize.saturating_sub(v.len())
}

// The n-th digit, counted from 1, of a package number that is padded on the left to eight; 0 where it has none.
fn nth_digit(v: &[u8], n: usize) -> u32
    ensures { (result ≡ nth_digit (padded v.now) n) × (result ≤ 207) }
{
    let zeros = zeros_before(v);
    if n <= zeros {
        0
    } else {
        digit(byte_or(v, n - zeros - 1))
    }
}

// Whether the check digit is right: each of the first seven digits times its weight, 1 to 7, all added; the remainder by 11 equals the eighth digit.
// 2394428 is 02394428 in eight digits:
//
//     digit      0    2    3    9    4    4    2
//     weight     1    2    3    4    5    6    7
//     product    0 +  4 +  9 + 36 + 20 + 24 + 14  =  107  =  9 * 11 + 8
//
// The remainder is 8, and so is the eighth digit. Where the remainder is 10, no eighth digit is right.
pub fn is_checked(v: &[u8]) -> bool
    ensures { result ≡ checks (padded v.now) }
{
    let sum = nth_digit(v, 1) * 1
        + nth_digit(v, 2) * 2
        + nth_digit(v, 3) * 3
        + nth_digit(v, 4) * 4
        + nth_digit(v, 5) * 5
        + nth_digit(v, 6) * 6
        + nth_digit(v, 7) * 7;
    let remainder = sum % 11;
    remainder == nth_digit(v, 8)
}

// Whether a value is a package number.
#[tactic(auto, using(crate::proofs::NumberLaws::above), unfolding(crate::specs::Sets::in_set))]
pub fn is_package(v: &[u8]) -> bool
    ensures { result ≡ is_package v.now }
{
    all_in(v, 0, DIGIT) && above_zero(v, 0) && is_checked(v)
}
