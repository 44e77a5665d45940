// The table looked up: an element under its parent by its name, a field of an element by its letters, and the columns of a field.
ghost use Rattle.std.specs.Prelude.{◌≡◌, ◌+◌, ◌-◌, ◌<◌, ◌≤◌, length, take, drop, get_or};
ghost use Rattle.paper.specs.Lists.{until};
ghost use Rattle.paper.specs.Fields.{code, named, fields_of, excluded};
ghost use Rattle.fields.specs.Places.{kind_at, rule_number, field_at, place_in, first_of, count_of, under, ones_of, others_of, key_of, key_or_none, field_count, kind_count};
ghost use Rattle.fields.specs.Columns.{other, entry_of, part_of, key_column, limit_column};

use crate::places::FIELDS;
use crate::table::{
    CHILD_COUNTS, CHILD_FIRSTS, CHILD_KEYS, CHILD_KINDS, COUNTS, FIRSTS, KEYS, LIMITS, PAIR_COUNTS,
    PAIR_FIRSTS, PAIR_ONES, PAIR_OTHERS,
};

// The letters of all fields, as keys.
pub fn keys() -> [u64; FIELDS]
    ensures { result ≡ key_column }
{
    KEYS
}

// The limits of all fields.
pub fn limits() -> [u64; FIELDS]
    ensures { result ≡ limit_column }
{
    LIMITS
}

// One of the five numbers in a field's limits.
fn part(limits: &[u64; FIELDS], id: usize, k: u64) -> usize
    requires { (id < field_count) × (k < 5) }
    ensures { result ≡ part_of (get_or limits.now id 0) k }
{
    ((limits[id] >> (12 * k)) % 4096) as usize
}

// A field's rule.
pub fn rule_in(limits: &[u64; FIELDS], id: usize) -> u8
    requires { (limits.now ≡ limit_column) × (id < field_count) }
    ensures { result ≡ rule_number (field_at id).rule }
{
    part(limits, id, 0) as u8
}

// Its least length.
pub fn least_in(limits: &[u64; FIELDS], id: usize) -> usize
    requires { (limits.now ≡ limit_column) × (id < field_count) }
    ensures { result ≡ (field_at id).least }
{
    part(limits, id, 1)
}

// Its greatest length.
pub fn most_in(limits: &[u64; FIELDS], id: usize) -> usize
    requires { (limits.now ≡ limit_column) × (id < field_count) }
    ensures { result ≡ (field_at id).most }
{
    part(limits, id, 2)
}

// How many line breaks it may have.
pub fn tildes_in(limits: &[u64; FIELDS], id: usize) -> usize
    requires { (limits.now ≡ limit_column) × (id < field_count) }
    ensures { result ≡ (field_at id).tildes }
{
    part(limits, id, 3)
}

// Whether it must be present.
pub fn must_in(limits: &[u64; FIELDS], id: usize) -> bool
    requires { (limits.now ≡ limit_column) × (id < field_count) }
    ensures { result ≡ (field_at id).must }
{
    part(limits, id, 4) == 1
}

// The letters of a field, as a key.
pub fn letters_of(id: usize) -> u64
    requires { id < field_count }
    ensures { result ≡ key_of (field_at id).letters }
{
    KEYS[id]
}

// The same rule, with the limits of the table itself.
pub fn rule_of(id: usize) -> u8
    requires { id < field_count }
    ensures { result ≡ rule_number (field_at id).rule }
{
    rule_in(&limits(), id)
}

// The number at a place of a packed column.
fn entry(column: u64, i: usize) -> usize
    requires { i < 10 }
    ensures { result ≡ entry_of column i }
{
    ((column >> (6 * i as u64)) % 64) as usize
}

// The place of an element's first field in the table.
pub fn first_of(element: u8) -> usize
    requires { element < kind_count }
    ensures { result ≡ first_of (kind_at element) }
{
    entry(FIRSTS, element as usize)
}

// How many fields an element has.
pub fn count_of(element: u8) -> usize
    requires { element < kind_count }
    ensures { (result ≡ count_of (kind_at element)) × (first_of (kind_at element) + result ≤ field_count) }
{
    entry(COUNTS, element as usize)
}

// How many pairs of fields of an element exclude each other.
pub fn pairs_of(element: u8) -> usize
    requires { element < kind_count }
    ensures { result ≡ length (excluded (kind_at element)) }
{
    entry(PAIR_COUNTS, element as usize)
}

// The place of the one field of such a pair among its element's fields.
pub fn pair_one(element: u8, i: usize) -> usize
    requires { (element < kind_count) × (i < length (excluded (kind_at element))) }
    ensures { result ≡ get_or (ones_of (kind_at element)) i 0 }
{
    let first = entry(PAIR_FIRSTS, element as usize);
    entry(PAIR_ONES, first + i)
}

// The place of the other field of such a pair.
pub fn pair_other(element: u8, i: usize) -> usize
    requires { (element < kind_count) × (i < length (excluded (kind_at element))) }
    ensures { result ≡ get_or (others_of (kind_at element)) i 0 }
{
    let first = entry(PAIR_FIRSTS, element as usize);
    entry(PAIR_OTHERS, first + i)
}

// The key of a name; 0 for one of more than seven bytes, which no element and no field has.
#[tactic(auto, using(crate::proofs::LookupLaws::key_room, crate::proofs::LookupLaws::key_small, crate::proofs::LookupLaws::key_on))]
pub fn key(name: &[u8]) -> u64
    ensures { result ≡ key_or_none name.now }
{
    if name.len() > 7 {
        return 0;
    }
    let mut k = 1;
    for i in (0..name.len()).rev() {
        k = k * 256 + name[i] as u64;
    }
    k
}

// How many keys stand before the one that is looked for, from one place up to another; all of them if it is not there.
#[tactic(auto, using(crate::proofs::LookupLaws::find_here, crate::proofs::LookupLaws::find_on, crate::proofs::LookupLaws::find_none))]
pub fn find(keys: &[u64], from: usize, to: usize, k: u64) -> usize
    requires { (from ≤ to) × (to ≤ length keys.now) }
    ensures { (result ≡ until (other k) (take (to - from) (drop from keys.now))) × (result ≤ to - from) }
{
    for i in from..to {
        if keys[i] == k {
            return i - from;
        }
    }
    to - from
}

// The place of a field among its element's, by its letters; the number of the element's fields if it has no such field.
pub fn field_in(keys: &[u64], element: u8, name: &[u8]) -> usize
    requires { (keys.now ≡ key_column) × (element < kind_count) }
    ensures { (result ≡ place_in name.now (fields_of (kind_at element))) × (result ≤ count_of (kind_at element)) }
{
    let first = first_of(element);
    let count = count_of(element);
    find(keys, first, first + count, key(name))
}

// The same, with the keys of the table itself.
pub fn field(element: u8, name: &[u8]) -> usize
    requires { element < kind_count }
    ensures { (result ≡ place_in name.now (fields_of (kind_at element))) × (result ≤ count_of (kind_at element)) }
{
    field_in(&keys(), element, name)
}

// The element of a name under a parent, 0 if the parent may not hold such a one; parent 10 is outside of all elements.
pub fn child(parent: u8, name: &[u8]) -> u8
    requires { parent < 11 }
    ensures { (result ≡ code (named name.now (under parent))) × (result < 10) }
{
    let keys = CHILD_KEYS;
    let kinds = CHILD_KINDS;
    let first = CHILD_FIRSTS[parent as usize] as usize;
    let count = CHILD_COUNTS[parent as usize] as usize;
    let i = find(&keys, first, first + count, key(name));
    if i < count { kinds[first + i] } else { 0 }
}
