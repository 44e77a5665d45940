// References and odd bytes of a value: where they end.
ghost use Rattle.std.specs.Prelude.{◌≡◌, true, ◌+◌, ◌≤◌, length, drop, IfSome};
ghost use Rattle.std.proofs.Math.Seq.{slice};
ghost use Rattle.paper.specs.Lists.{until};
ghost use Rattle.paper.specs.Sizes.{page_bytes};
ghost use Rattle.quoted.specs.Raws.{numeral, rare, RefAt};

use room::{byte_or, spells};

// Whether a byte is a digit, decimal or hexadecimal in either case.
fn is_numeral(b: u8, hex: bool) -> bool
    ensures { result ≡ numeral hex b }
{
    matches!(b, b'0'..=b'9') || hex && matches!(b, b'A'..=b'F' | b'a'..=b'f')
}

// Where the digits end that begin at `at`.
fn numerals_end(page: &[u8], at: usize, hex: bool) -> usize
    requires { at ≤ length page.now }
    ensures { (result ≡ at + until (numeral hex) (drop at page.now)) × (at ≤ result) × (result ≤ length page.now) }
{
    for i in at..page.len() {
        if !is_numeral(page[i], hex) {
            return i;
        }
    }
    page.len()
}

// Whether a byte that is not ordinary may stand in a value in other quotes than itself: a space, a quote, a line break.
pub fn is_rare(b: u8) -> bool
    ensures { result ≡ rare b }
{
    matches!(b, b'~' | b'\n' | b'\r' | b'\t' | b'"' | b'\'')
}

// Whether the bytes from `at` up to `to` are those of the word, where the page reaches that far.
fn reads(page: &[u8], at: usize, to: usize, word: &[u8]) -> bool
    requires { at ≤ to }
    ensures { result ≡ true → (to ≤ length page.now) × (slice at to page.now ≡ word.now) }
{
    to <= page.len() && spells(page, at, to, word)
}

// Passes over the reference whose `&` stands before `at`, and returns the place behind its `;`, if it is well-formed.
pub fn reference_end(page: &[u8], at: usize) -> Option<usize>
    requires { (at ≤ length page.now) × (length page.now ≤ page_bytes) }
    ensures { IfSome result (λ r. RefAt page.now at r) }
{
    if byte_or(page, at) == b'#' {
        let hex = byte_or(page, at + 1) == b'x';
        let from = if hex { at + 2 } else { at + 1 };
        let e = numerals_end(page, from, hex);
        if e > from && byte_or(page, e) == b';' {
            return Some(e + 1);
        }
        return None;
    }
    if reads(page, at, at + 4, b"amp;") {
        return Some(at + 4);
    }
    if reads(page, at, at + 3, b"lt;") || reads(page, at, at + 3, b"gt;") {
        return Some(at + 3);
    }
    if reads(page, at, at + 5, b"quot;") || reads(page, at, at + 5, b"apos;") {
        return Some(at + 5);
    }
    None
}
