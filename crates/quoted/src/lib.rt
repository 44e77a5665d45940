// One value between quotes, on the quick way: where its ordinary bytes end, and the value that they are; a value with odd bytes, decoded; and whether it is fine by its field.
#![tactic(auto)]

pub mod coded;
mod odd;
pub mod raw;
pub mod value;

ghost use Rattle.std.specs.Prelude.{◌≡◌, not, ◌+◌, ◌≤◌, length, drop, IfSome};
ghost use Rattle.std.proofs.Math.Seq.{slice};
ghost use Rattle.paper.specs.Lists.{until};
ghost use Rattle.paper.specs.Values.{cut};
ghost use Rattle.paper.specs.Grammar.{Quote};
ghost use Rattle.quoted.specs.Plain.{ordinary, odd_table, Plainly};

use odd::ODD;

// The closing quote of a value, and where the value ends once its trailing blanks are cut.
#[derive(Clone, Copy)]
pub struct Plain {
    pub quote: usize,
    pub end: usize,
}

// The table of odd bytes, for a caller that copies it once.
pub fn odd_table() -> [u8; 256]
    ensures { result ≡ odd_table }
{
    ODD
}

// Whether a byte is odd: not one that stands for itself in a value in either quotes and is no line break.
fn is_odd(b: u8, odd: &[u8; 256]) -> bool
    requires { odd.now ≡ odd_table }
    ensures { result ≡ not (ordinary b) }
{
    odd[b as usize] == 1
}

// Where the ordinary bytes end that begin at `at`. Four are taken in one turn. That loop may not change: reading's speed hangs on it.
pub fn ordinary_end(page: &[u8], at: usize, odd: &[u8; 256]) -> usize
    requires { (at ≤ length page.now) × (odd.now ≡ odd_table) }
    ensures { (result ≡ at + until ordinary (drop at page.now)) × (at ≤ result) × (result ≤ length page.now) }
{
    let mut i = at;
    while page.len() - i >= 4 {
        if is_odd(page[i], odd) {
            return i;
        }
        if is_odd(page[i + 1], odd) {
            return i + 1;
        }
        if is_odd(page[i + 2], odd) {
            return i + 2;
        }
        if is_odd(page[i + 3], odd) {
            return i + 3;
        }
        i += 4;
    }
    for j in i..page.len() {
        if is_odd(page[j], odd) {
            return j;
        }
    }
    page.len()
}

// The end of the bytes from `at` to `end` without the blanks before it.
pub fn trimmed(page: &[u8], at: usize, end: usize) -> usize
    requires { (at ≤ end) × (end ≤ length page.now) }
    ensures { (slice at result page.now ≡ cut (slice at end page.now)) × (at ≤ result) × (result ≤ end) }
{
    for i in (at..end).rev() {
        if page[i] != b' ' {
            return i + 1;
        }
    }
    at
}

// The value in quotes `q` that begins at `at`, if all its bytes are ordinary.
pub fn plain_value(page: &[u8], at: usize, q: u8, odd: &[u8; 256]) -> Option<Plain>
    requires { (at ≤ length page.now) × (odd.now ≡ odd_table) × Quote q }
    ensures { IfSome result (λ p. Plainly page.now at q p.quote p.end) }
{
    let quote = ordinary_end(page, at, odd);
    if quote < page.len() && page[quote] == q {
        let end = trimmed(page, at, quote);
        return Some(Plain { quote, end });
    }
    None
}
