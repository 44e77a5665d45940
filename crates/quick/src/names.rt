// What is looked up by an element alone, or by an element and one letter, in one table that a caller copies once.
ghost use Rattle.std.specs.Prelude.{◌≡◌, ◌+◌, ◌≤◌, ◌<◌, length, IfSome};
ghost use Rattle.paper.specs.Fields.{fields_of};
ghost use Rattle.paper.specs.Sizes.{page_bytes};
ghost use Rattle.fields.specs.Places.{kind_at, place_in, first_of, count_of, field_count, kind_count};
ghost use Rattle.fields.specs.Columns.{key_column};
ghost use Rattle.quick.specs.Letters.{letter_table, LetterAt};

use crate::attrs::is_quote;
use crate::letters::LETTERS;
use fields::lookup::{find, key};
use room::byte_or;

// How many numbers of the table belong to one element.
const ROW: usize = 128;

// From here on a number of the table is no place of a field.
const NO_PLACE: usize = 128;

// The table, for a caller that copies it once.
pub fn letter_table() -> [u8; 1280]
    ensures { result ≡ letter_table }
{
    LETTERS
}

// How many fields an element has.
pub fn count_in(letters: &[u8; 1280], kind: u8) -> usize
    requires { (kind < kind_count) × (letters.now ≡ letter_table) }
    ensures { (result ≡ count_of (kind_at kind)) × (first_of (kind_at kind) + result ≤ field_count) }
{
    letters[kind as usize * ROW] as usize - NO_PLACE
}

// The place of an element's first field in the table of fields.
pub fn first_in(letters: &[u8; 1280], kind: u8) -> usize
    requires { (kind < kind_count) × (letters.now ≡ letter_table) }
    ensures { result ≡ first_of (kind_at kind) }
{
    letters[kind as usize * ROW + 1] as usize - NO_PLACE
}

// The place of a field among its element's, by its letters; the number of the element's fields if it has no such field.
pub fn field_by(keys: &[u64], letters: &[u8; 1280], kind: u8, name: &[u8]) -> usize
    requires { (keys.now ≡ key_column) × (kind < kind_count) × (letters.now ≡ letter_table) }
    ensures { (result ≡ place_in name.now (fields_of (kind_at kind))) × (result ≤ count_of (kind_at kind)) }
{
    let first = first_in(letters, kind);
    let count = count_in(letters, kind);
    find(keys, first, first + count, key(name))
}

// The place among an element's fields of the one whose name is the letter at `a`, if `=` and a quote follow at once.
pub fn letter_place(page: &[u8], a: usize, kind: u8, letters: &[u8; 1280]) -> Option<usize>
    requires { (a ≤ length page.now) × (length page.now ≤ page_bytes) × (kind < kind_count) × (letters.now ≡ letter_table) }
    ensures { IfSome result (λ j. LetterAt page.now (kind_at kind) a j) }
{
    if byte_or(page, a + 1) == b'=' && is_quote(byte_or(page, a + 2)) {
        let b = byte_or(page, a);
        if b < 128 {
            let j = letters[kind as usize * ROW + b as usize] as usize;
            if j < NO_PLACE {
                return Some(j);
            }
        }
    }
    None
}
