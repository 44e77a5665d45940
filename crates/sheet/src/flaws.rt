// The faults of an element's own tag beside 5: what is wrong with its values (6, 7, 8), and whether an M still needs a W.
ghost use Rattle.std.specs.Prelude.{◌≡◌, false, List, ◌+◌, ◌*◌, ◌≤◌, ◌<◌, min, length, take, get_or};
ghost use Rattle.paper.specs.Causes.{flaw_number};
ghost use Rattle.paper.specs.Values.{value};
ghost use Rattle.paper.specs.Fields.{fields_of};
ghost use Rattle.paper.specs.Grammar.{Attr};
ghost use Rattle.paper.specs.Rules.{settle};
ghost use Rattle.paper.specs.Judging.{names, slots_of, broken, mp_version};
ghost use Rattle.paper.specs.Sizes.{page_bytes};
ghost use Rattle.fields.specs.Places.{kind_at, rule_at, field_at, field_flaw, count_of, field_count, kind_count};
ghost use Rattle.fields.specs.Columns.{limit_column};
ghost use Rattle.sheet.specs.Fold.{flaw, needs_w};
ghost use Rattle.sheet.specs.Found.{raw_at, told, Tells};
ghost use Rattle.sheet.specs.Flaws.{settle_by, fields_flaw, pages_flaw, digits_flaw, clash_at};

use fields::dose::is_zero;
use fields::lookup::{count_of, first_of, pair_one, pair_other, pairs_of, rule_in};
use fields::places::{FIELDS, M, MP};
use fields::rules::value_flaw;
use markup::values::decode;
use paper::Cause;
use room::spells;

// The places of v, a and z among MP's fields.
const EDITION: usize = 0;

const NUMBER: usize = 4;

const COUNT: usize = 5;

// The places of p and a among M's fields.
const PACKAGE: usize = 0;

const NAME: usize = 1;

// Writes the value of field `j` into `scratch` from 0 on, and tells how many bytes it has: none where the attribute is not there.
fn value_len(page: &[u8], raws: &[u16], j: usize, scratch: &mut [u8]) -> usize
    requires { (length page.now ≤ length scratch.old) × (2 * j + 1 < length raws.now) }
    ensures { (take result scratch.new ≡ value (raw_at page.now raws.now j)) × (result ≤ length scratch.old) }
{
    let at = raws[2 * j] as usize;
    let end = (raws[2 * j + 1] as usize).min(page.len());
    if at >= end {
        return 0;
    }
    decode(page, at, end, scratch, 0)
}

// The same of the value that counts under a rule: a dose that is exactly "0" is absent.
fn settled_len(page: &[u8], raws: &[u16], j: usize, rule: u8, scratch: &mut [u8]) -> usize
    requires { (length page.now ≤ length scratch.old) × (2 * j + 1 < length raws.now) }
    ensures { (take result scratch.new ≡ settle_by (rule_at rule) (value (raw_at page.now raws.now j))) × (result ≤ length scratch.old) }
{
    let n = value_len(page, raws, j, scratch);
    if is_zero(rule, &scratch[..n]) {
        return 0;
    }
    n
}

// The first byte of the value of field `j`, 0 if there is none.
fn first_byte(page: &[u8], raws: &[u16], j: usize, scratch: &mut [u8]) -> u8
    requires { (length page.now ≤ length scratch.old) × (2 * j + 1 < length raws.now) }
    ensures { result ≡ get_or (value (raw_at page.now raws.now j)) 0 0 }
{
    let n = value_len(page, raws, j, scratch);
    if n == 0 { 0 } else { scratch[0] }
}

// The fault of field `j`, which stands at `id` in the table: its value breaks it, or it must be present and is not.
fn field_flaw(
    page: &[u8],
    raws: &[u16],
    j: usize,
    id: usize,
    limits: &[u64; FIELDS],
    scratch: &mut [u8],
) -> Option<Cause>
    requires { (length page.now ≤ length scratch.old) × (2 * j + 1 < length raws.now) × (id < field_count) × (limits.now ≡ limit_column) }
    ensures { flaw_number result ≡ field_flaw (field_at id) (settle (field_at id) (value (raw_at page.now raws.now j))) }
{
    let n = settled_len(page, raws, j, rule_in(limits, id), scratch);
    value_flaw(limits, id, scratch, 0, n)
}

// The least fault of an element's fields: some value breaks its field, else one that must be present is missing.
#[tactic(auto, using(crate::proofs::FlawLaws::turn_broken, crate::proofs::FlawLaws::turn_cause, crate::proofs::FlawLaws::turn_fine, crate::proofs::FlawLaws::turn_done))]
fn fields_flaw(
    page: &[u8],
    kind: u8,
    raws: &[u16],
    limits: &[u64; FIELDS],
    scratch: &mut [u8],
) -> Option<Cause>
    requires { (length page.now ≤ length scratch.old) × (kind < kind_count) × (2 * count_of (kind_at kind) ≤ length raws.now) × (limits.now ≡ limit_column) }
    ensures { flaw_number result ≡ fields_flaw 9 (fields_of (kind_at kind)) (told page.now (kind_at kind) raws.now) }
{
    let first = first_of(kind);
    let count = count_of(kind);
    let mut worst = None;
    for j in 0..count {
        match field_flaw(page, raws, j, first + j, limits, scratch) {
            Some(Cause::Value) => return Some(Cause::Value),
            Some(cause) => worst = Some(cause),
            None => {}
        }
    }
    worst
}

// Whether an element is MP and its v is not the edition 027.
fn edition_differs(page: &[u8], kind: u8, raws: &[u16], scratch: &mut [u8]) -> bool
    requires { (length page.now ≤ length scratch.old) × (kind < kind_count) × (2 * count_of (kind_at kind) ≤ length raws.now) }
    ensures { result ≡ mp_version (kind_at kind) (told page.now (kind_at kind) raws.now) }
{
    if kind != MP {
        return false;
    }
    let n = value_len(page, raws, EDITION, scratch);
    !spells(scratch, 0, n, b"027")
}

// The fault of a page's number a and the count of pages z by their digits, 0 for an absent one.
#[tactic(auto, unfolding(crate::specs::Flaws::digits_flaw))]
pub fn digits_flaw(a: u8, z: u8) -> Option<Cause>
    ensures { flaw_number result ≡ digits_flaw a z }
{
    if (a == 0) != (z == 0) {
        return Some(Cause::Incomplete);
    }
    if z < a {
        return Some(Cause::Value);
    }
    None
}

// The fault of MP's a and z, where each keeps its field: a is above z, or one stands without the other.
fn pages_flaw(page: &[u8], kind: u8, raws: &[u16], scratch: &mut [u8]) -> Option<Cause>
    requires { (length page.now ≤ length scratch.old) × (kind < kind_count) × (2 * count_of (kind_at kind) ≤ length raws.now) × (broken (fields_of (kind_at kind)) (told page.now (kind_at kind) raws.now) ≡ false) }
    ensures { flaw_number result ≡ pages_flaw (kind_at kind) (told page.now (kind_at kind) raws.now) }
{
    if kind != MP {
        return None;
    }
    let a = first_byte(page, raws, NUMBER, scratch);
    let z = first_byte(page, raws, COUNT, scratch);
    digits_flaw(a, z)
}

// Whether two fields of an element that exclude each other stand in its tag, empty or not, by numbers from `base` on, two to a field: the first is 0 where the
// attribute is not there.
#[tactic(auto, using(crate::proofs::FlawLaws::one_within, crate::proofs::FlawLaws::other_within, crate::proofs::FlawLaws::clash_no_one, crate::proofs::FlawLaws::clash_no_other, crate::proofs::FlawLaws::clash_both, crate::proofs::FlawLaws::clash_none), unfolding(crate::specs::Flaws::clash_at))]
pub fn clashes(kind: u8, numbers: &[u16], base: usize) -> bool
    requires { (kind < kind_count) × (base + 2 * count_of (kind_at kind) ≤ length numbers.now) }
    ensures { result ≡ clash_at (kind_at kind) numbers.now base }
{
    for i in 0..pairs_of(kind) {
        let one = numbers[base + 2 * pair_one(kind, i)];
        let other = numbers[base + 2 * pair_other(kind, i)];
        if one != 0 && other != 0 {
            return true;
        }
    }
    false
}

// The least fault that a tag's own values give, if any, with the limits of the table handed down by a caller that copies them once. `scratch` is room
// for one value; what it then holds is of no meaning.
pub fn flaw_of(
    page: &[u8],
    kind: u8,
    raws: &[u16],
    limits: &[u64; FIELDS],
    scratch: &mut [u8],
) -> Option<Cause>
    requires { (length page.now ≤ length scratch.old) × (kind < kind_count) × (2 * count_of (kind_at kind) ≤ length raws.now) × (limits.now ≡ limit_column) }
    ensures { (l : List Attr) → Tells page.now (kind_at kind) raws.now l → flaw_number result ≡ flaw (kind_at kind) (names l) (slots_of (fields_of (kind_at kind)) l) }
{
    if edition_differs(page, kind, raws, scratch) {
        return Some(Cause::Edition);
    }
    let own = fields_flaw(page, kind, raws, limits, scratch);
    if own == Some(Cause::Value) {
        return own;
    }
    if let Some(cause) = pages_flaw(page, kind, raws, scratch) {
        return Some(cause);
    }
    if clashes(kind, raws, 0) {
        return Some(Cause::Incomplete);
    }
    own
}

// Whether an element with these values is an M that has neither p nor a.
pub fn needs_w(page: &[u8], kind: u8, raws: &[u16], scratch: &mut [u8]) -> bool
    requires { (length page.now ≤ page_bytes) × (length page.now ≤ length scratch.old) × (kind < kind_count) × (2 * count_of (kind_at kind) ≤ length raws.now) }
    ensures { (l : List Attr) → Tells page.now (kind_at kind) raws.now l → result ≡ needs_w (kind_at kind) (slots_of (fields_of (kind_at kind)) l) }
{
    if kind != M {
        return false;
    }
    value_len(page, raws, PACKAGE, scratch) == 0 && value_len(page, raws, NAME, scratch) == 0
}
