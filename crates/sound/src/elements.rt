// Elements: whether spans that stand among numbers, span j at number 2 + 2 * j, are fit for the fields of an element.
ghost use Rattle.std.specs.Prelude.{◌≡◌, ◌+◌, ◌*◌, ◌≤◌, ◌<◌, length};
ghost use Rattle.fields.specs.Places.{kind_at, count_of, field_count, kind_count};
ghost use Rattle.fields.specs.Columns.{limit_column};
ghost use Rattle.plan.specs.Numbers.{spans_in};
ghost use Rattle.sound.specs.Judged.{fine_from, clash_at, fine_element, absent_from};

use crate::values::fine_value;
use fields::lookup::{count_of, first_of, pair_one, pair_other, pairs_of};
use fields::places::FIELDS;

// Whether `count` spans from span j on are fit for as many fields of the table, from `first` on.
#[tactic(auto, using(crate::proofs::ElementLaws::fields_more, crate::proofs::ElementLaws::fields_done))]
pub fn fine_fields(
    numbers: &[u32],
    j: usize,
    first: usize,
    count: usize,
    text: &[u8],
    limits: &[u64; FIELDS],
) -> bool
    requires { (2 + 2 * (j + count) ≤ length numbers.now) × (first + count ≤ field_count) × (limits.now ≡ limit_column) }
    ensures { result ≡ fine_from text.now first count j numbers.now }
{
    for i in 0..count {
        let k = j + i;
        if !fine_value(
            text,
            numbers[2 + 2 * k],
            numbers[3 + 2 * k],
            first + i,
            limits,
        ) {
            return false;
        }
    }
    true
}

// Whether `count` spans from span j on are absent.
#[tactic(auto, using(crate::proofs::ElementLaws::absent_more, crate::proofs::ElementLaws::absent_done))]
pub fn all_absent(numbers: &[u32], j: usize, count: usize) -> bool
    requires { 2 + 2 * (j + count) ≤ length numbers.now }
    ensures { result ≡ absent_from count j numbers.now }
{
    for i in 0..count {
        if numbers[3 + 2 * (j + i)] != 0 {
            return false;
        }
    }
    true
}

// Whether two fields of an element that exclude each other are present; its spans stand from number k on.
#[tactic(auto, using(crate::proofs::ElementLaws::one_within, crate::proofs::ElementLaws::other_within, crate::proofs::ElementLaws::pairs_more, crate::proofs::ElementLaws::clash_none), unfolding(crate::specs::Judged::clash_at))]
pub fn clashes(numbers: &[u32], k: usize, element: u8) -> bool
    requires { (element < kind_count) × (k + 2 * count_of (kind_at element) ≤ length numbers.now) }
    ensures { result ≡ clash_at (kind_at element) numbers.now k }
{
    for i in 0..pairs_of(element) {
        let one = numbers[k + (2 * pair_one(element, i) + 1)];
        let other = numbers[k + (2 * pair_other(element, i) + 1)];
        if one != 0 && other != 0 {
            return true;
        }
    }
    false
}

// Whether the spans of an element, from span j on, lie within the text and show a good element.
#[tactic(auto, using(crate::proofs::ElementLaws::element_clash, crate::proofs::ElementLaws::element_by))]
pub fn fine_element(
    numbers: &[u32],
    j: usize,
    element: u8,
    text: &[u8],
    limits: &[u64; FIELDS],
) -> bool
    requires { (element < kind_count) × (2 + 2 * (j + count_of (kind_at element)) ≤ length numbers.now) × (limits.now ≡ limit_column) }
    ensures { result ≡ fine_element text.now (kind_at element) (spans_in (count_of (kind_at element)) j numbers.now) }
{
    !clashes(numbers, 2 + 2 * j, element)
        && fine_fields(
            numbers,
            j,
            first_of(element),
            count_of(element),
            text,
            limits,
        )
}
