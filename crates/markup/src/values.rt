// Values: what the bytes between two quotes stand for, and how a value is spelled on a fresh page.
ghost use Rattle.std.specs.Prelude.{◌≡◌, true, false, ◌++◌, ◌∷◌, [], ◌<◌, ◌≤◌, ◌+◌, ◌-◌, ◌^◌, length, get_or, replicate};
ghost use Rattle.std.proofs.Math.Seq.{slice};
ghost use Rattle.paper.specs.Values as Paper;
ghost use Rattle.room.specs.Laid.{laid};
ghost use Rattle.markup.specs.Decoding.{digit_in, numeral_in, byte_in, named_of, place_at, Sound, Gives};

use room::lay;

// A blank.
const BLANK: u8 = b' ';

// Where in a raw value: in its text, behind a byte 13, or in a reference whose first byte behind the `&` stands there.
#[derive(Clone, Copy)]
enum Place {
    Text,
    Cr,
    Ref(usize),
}

// What one byte of a raw value gives, if it gives one, and where it leads.
#[derive(Clone, Copy)]
struct Given {
    out: Option<u8>,
    to: Place,
}

// The value of a byte as a digit, in base 10 or 16; in base 16 in either case.
fn digit(b: u8, base: u8) -> u8
    ensures { result ≡ digit_in base b }
{
    if base != 16 || b <= b'9' {
        b.saturating_sub(b'0')
    } else if b <= b'F' {
        b - (b'A' - 10)
    } else {
        b.saturating_sub(b'a' - 10)
    }
}

// The number that digits spell, if it is at most 255.
fn numeral(digits: &[u8], base: u8) -> Option<u8>
    requires { 0 < base }
    ensures { result ≡ byte_in (numeral_in base 0 digits.now) }
{
    let mut n = 0u8;
    for b in digits {
        n = n.checked_mul(base)?.checked_add(digit(*b, base))?;
    }
    Some(n)
}

// The byte that a number stands for, or 0 where a value may not hold it.
fn mark(n: u8) -> u8
    ensures { result ≡ Paper.mark n }
{
    match n {
        32..=126 | 160..=255 => n,
        _ => 0,
    }
}

// The byte that a named reference stands for, or 0 for any other name.
#[tactic(auto, using(room::proofs::Compared::pointwise_same), unfolding(crate::specs::Decoding::named_of))]
fn named(name: &[u8]) -> u8
    ensures { result ≡ named_of name.now }
{
    if name == b"amp".as_slice() {
        b'&'
    } else if name == b"lt".as_slice() {
        b'<'
    } else if name == b"gt".as_slice() {
        b'>'
    } else if name == b"quot".as_slice() {
        b'"'
    } else if name == b"apos".as_slice() {
        b'\''
    } else {
        0
    }
}

// The byte that a reference stands for, by its bytes between `&` and `;`; the byte 0 where a value may not hold it: the definition puts that byte into
// the value.
pub fn refers(page: &[u8], from: usize, to: usize) -> u8
    requires { (from ≤ to) × (to ≤ length page.now) }
    ensures { result ≡ Paper.refers (slice from to page.now) }
{
    match &page[from..to] {
        [b'#', b'x', digits @ ..] => mark(numeral(digits, 16).unwrap_or(0)),
        [b'#', digits @ ..] => mark(numeral(digits, 10).unwrap_or(0)),
        name => named(name),
    }
}

// What the byte at `i` gives in a value's text.
fn text_step(page: &[u8], i: usize) -> Given
    requires { i < length page.now }
    ensures { Gives page.now i (Paper.plainly (get_or page.now i 0)) result }
{
    match page[i] {
        b'&' => Given {
            out: None,
            to: Place::Ref(i + 1),
        },
        b'\r' => Given {
            out: Some(BLANK),
            to: Place::Cr,
        },
        b'\n' | b'\t' => Given {
            out: Some(BLANK),
            to: Place::Text,
        },
        b => Given {
            out: Some(b),
            to: Place::Text,
        },
    }
}

// What the byte at `i` gives where it stands.
fn step(page: &[u8], i: usize, m: Place) -> Given
    requires { (i < length page.now) × Sound i m }
    ensures { Gives page.now i (Paper.vstep (place_at page.now i m) (get_or page.now i 0)) result }
{
    match m {
        Place::Cr if page[i] == b'\n' => Given {
            out: None,
            to: Place::Text,
        },
        Place::Text | Place::Cr => text_step(page, i),
        Place::Ref(start) if page[i] == b';' => Given {
            out: Some(refers(page, start, i)),
            to: Place::Text,
        },
        Place::Ref(_) => Given { out: None, to: m },
    }
}

// Writes so many blanks and then a byte from `n` on, and returns the place behind them.
fn put(out: &mut [u8], n: usize, blanks: usize, v: u8) -> usize
    requires { n + blanks < length out.old }
    ensures { (result ≡ n + blanks + 1) × (out.new ≡ laid out.old n (replicate blanks 32 ++ (v ∷ []))) }
{
    out[n..n + blanks].fill(BLANK);
    out[n + blanks] = v;
    n + blanks + 1
}

// Writes the value of the raw bytes from `from` to `to` into `out` from `at` on, byte by byte, and returns the place behind it.
// Trailing blanks are held back and so never written; a number that a value may not hold gives the byte 0, which no field takes.
fn decode_each(page: &[u8], from: usize, to: usize, out: &mut [u8], at: usize) -> usize
    requires { (from ≤ to) × (to ≤ length page.now) × (at + (to - from) ≤ length out.old) }
    ensures { (result ≡ at + length (Paper.value (slice from to page.now))) × (result ≤ at + (to - from)) × (out.new ≡ laid out.old at (Paper.value (slice from to page.now))) }
{
    let mut n = at;
    let mut blanks = 0;
    let mut m = Place::Text;
    for i in from..to {
        let s = step(page, i, m);
        m = s.to;
        match s.out {
            None => {}
            Some(v) if v == BLANK => blanks += 1,
            Some(v) => {
                n = put(out, n, blanks, v);
                blanks = 0;
            }
        }
    }
    n
}

// Whether a raw byte may not stand for itself: an `&` or a control byte.
fn odd(b: u8) -> bool
    ensures { result ≡ false → (32 ≤ b) × (b ≡ 38 → ⊥) }
{
    b < 32 || b == b'&'
}

// Whether the raw bytes from `from` to `to` are surely their own value: no reference, no control byte, no blank at the end. But for the last byte
// none ends the look early, so that many can be taken at once.
fn plain(page: &[u8], from: usize, to: usize) -> bool
    requires { (from ≤ to) × (to ≤ length page.now) }
    ensures { result ≡ true → Paper.value (slice from to page.now) ≡ slice from to page.now }
{
    if from == to {
        return true;
    }
    let last = to - 1;
    if page[last] < 33 || page[last] == b'&' {
        return false;
    }
    let mut odds = false;
    for i in from..last {
        odds |= odd(page[i]);
    }
    !odds
}

// Writes the value of the raw bytes from `from` to `to` into `out` from `at` on, and returns the place behind it. No other byte of `out` changes.
pub fn decode(page: &[u8], from: usize, to: usize, out: &mut [u8], at: usize) -> usize
    requires { (from ≤ to) × (to ≤ length page.now) × (at + (to - from) ≤ length out.old) }
    ensures { (result ≡ at + length (Paper.value (slice from to page.now))) × (result ≤ at + (to - from)) × (out.new ≡ laid out.old at (Paper.value (slice from to page.now))) }
{
    if plain(page, from, to) {
        lay(out, at, &page[from..to])
    } else {
        decode_each(page, from, to, out, at)
    }
}

// Writes a byte of a value as it is spelled on a fresh page, and returns the place behind it.
fn spell_byte(out: &mut [u8], n: usize, b: u8) -> usize
    requires { n + length (Paper.esc b) ≤ length out.old }
    ensures { (result ≡ n + length (Paper.esc b)) × (out.new ≡ laid out.old n (Paper.esc b)) }
{
    match b {
        b'&' => lay(out, n, b"&amp;"),
        b'<' => lay(out, n, b"&lt;"),
        b'"' => lay(out, n, b"&quot;"),
        _ => {
            out[n] = b;
            n + 1
        }
    }
}

// Writes the fresh spelling of the value from `from` to `to` into `out` from `at` on, and returns the place behind it. No other byte of `out` changes.
pub fn spell(text: &[u8], from: usize, to: usize, out: &mut [u8], at: usize) -> usize
    requires { (from ≤ to) × (to ≤ length text.now) × (at + length (Paper.escape (slice from to text.now)) ≤ length out.old) }
    ensures { (result ≡ at + length (Paper.escape (slice from to text.now))) × (out.new ≡ laid out.old at (Paper.escape (slice from to text.now))) }
{
    let mut n = at;
    for i in from..to {
        n = spell_byte(out, n, text[i]);
    }
    n
}
