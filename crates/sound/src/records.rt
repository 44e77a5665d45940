// Records: whether a row's record of 48 numbers is sound, by its kind.
ghost use Rattle.std.specs.Prelude.{◌≡◌, ◌+◌, ◌*◌, ◌≤◌, ◌<◌, length};
ghost use Rattle.fields.specs.Places.{kind_at, count_of, kind_count};
ghost use Rattle.fields.specs.Columns.{limit_column};
ghost use Rattle.plan.specs.Numbers.{stride};
ghost use Rattle.sound.specs.Judged.{fine_plain, last_w, fine_ws, lacking, fine_medication};
ghost use Rattle.sound.specs.Sound.{record_sound};

use crate::elements::{all_absent, clashes, fine_element, fine_fields};
use crate::values::good_package;
use fields::lookup::count_of;
use fields::places::{FIELDS, M, M_A, R, S, W, X};
use plan::Kind;

// Whether a record of an element other than M is fine: its own spans are, and nothing stands where it has none.
#[tactic(auto, unfolding(crate::specs::Judged::fine_plain))]
fn fine_plain(numbers: &[u32], element: u8, text: &[u8], limits: &[u64; FIELDS]) -> bool
    requires { (element < kind_count) × (count_of (kind_at element) ≤ 19) × (stride ≤ length numbers.now) × (limits.now ≡ limit_column) }
    ensures { result ≡ fine_plain text.now (kind_at element) numbers.now }
{
    let own = count_of(element);
    numbers[1] == 0
        && fine_element(numbers, 0, element, text, limits)
        && all_absent(numbers, own, 19 - own)
}

// How many W a medication's record has, up to the last one that is present.
#[tactic(auto, unfolding(crate::specs::Judged::last_w))]
fn last_w(numbers: &[u32]) -> usize
    requires { stride ≤ length numbers.now }
    ensures { result ≡ last_w numbers.now }
{
    if !all_absent(numbers, 17, 2) {
        3
    } else if !all_absent(numbers, 15, 2) {
        2
    } else if !all_absent(numbers, 13, 2) {
        1
    } else {
        0
    }
}

// Whether the first n W of a medication's record are fine; one that is absent lacks its w.
#[tactic(auto, using(crate::proofs::RecordLaws::ws_more), unfolding(crate::specs::Judged::fine_ws, fields::specs::Places::kind_at, fields::specs::Places::count_of, paper::specs::Fields::fields_of))]
fn fine_ws(numbers: &[u32], n: usize, text: &[u8], limits: &[u64; FIELDS]) -> bool
    requires { (n ≤ 3) × (stride ≤ length numbers.now) × (limits.now ≡ limit_column) }
    ensures { result ≡ fine_ws text.now n 13 numbers.now }
{
    for i in 0..n {
        if !fine_element(numbers, 13 + 2 * i, W, text, limits) {
            return false;
        }
    }
    true
}

// Whether a medication's record of n W lacks p, a and a W.
#[tactic(auto, unfolding(crate::specs::Judged::lacking))]
fn lacks(numbers: &[u32], n: usize) -> bool
    requires { stride ≤ length numbers.now }
    ensures { result ≡ lacking n numbers.now }
{
    n == 0 && numbers[1] == 0 && numbers[3] == 0
}

// Whether a medication's record is fine.
#[tactic(auto, using(crate::proofs::RecordLaws::medication_by, crate::proofs::RecordLaws::last_few), unfolding(crate::specs::Judged::fine_medication, fields::specs::Places::kind_at, fields::specs::Places::count_of, paper::specs::Fields::fields_of))]
fn fine_medication(numbers: &[u32], text: &[u8], limits: &[u64; FIELDS]) -> bool
    requires { (stride ≤ length numbers.now) × (limits.now ≡ limit_column) }
    ensures { result ≡ fine_medication text.now numbers.now }
{
    let n = last_w(numbers);
    !lacks(numbers, n)
        && good_package(numbers[1], limits)
        && fine_fields(numbers, 0, M_A, 13, text, limits)
        && !clashes(numbers, 0, M)
        && fine_ws(numbers, n, text, limits)
}

// Whether a row's record is sound, with the limits of the table handed down by a caller that copies them once.
#[tactic(auto, using(plan::proofs::Parts::kind_is, crate::proofs::RecordLaws::heading_is, crate::proofs::RecordLaws::medication_is, crate::proofs::RecordLaws::recipe_is, crate::proofs::RecordLaws::note_is, crate::proofs::RecordLaws::unknown_is), unfolding(fields::specs::Places::kind_at, fields::specs::Places::count_of, paper::specs::Fields::fields_of))]
pub fn record_sound(numbers: &[u32], text: &[u8], limits: &[u64; FIELDS]) -> bool
    requires { (stride ≤ length numbers.now) × (limits.now ≡ limit_column) }
    ensures { result ≡ record_sound text.now numbers.now }
{
    match Kind::from(numbers[0]) {
        Kind::Heading => !all_absent(numbers, 0, 2) && fine_plain(numbers, S, text, limits),
        Kind::Medication => fine_medication(numbers, text, limits),
        Kind::Recipe => fine_plain(numbers, R, text, limits),
        Kind::Note => fine_plain(numbers, X, text, limits),
        Kind::Unknown => false,
    }
}
