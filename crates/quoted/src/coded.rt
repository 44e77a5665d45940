// A value with odd bytes, decoded into the side room in the one pass that finds its end.
ghost use Rattle.std.specs.Prelude.{◌≡◌, [], ◌∷◌, ◌≤◌, ◌<◌, ltb, length, get_or, IfSome};
ghost use Rattle.paper.specs.Lists.{if, count};
ghost use Rattle.paper.specs.Grammar.{Quote};
ghost use Rattle.paper.specs.Sizes.{page_bytes};
ghost use Rattle.quoted.specs.Plain.{odd_table};
ghost use Rattle.quoted.specs.Coded.{OddAt, CodedAt};

use crate::raw::{is_rare, reference_end};
use crate::{ordinary_end, trimmed};
use markup::values::refers;
use room::{byte_or, lay};

// What an odd byte, or a reference that begins with one, stands for, and the place behind it.
#[derive(Clone, Copy)]
struct Odd {
    next: usize,
    byte: u8,
}

// A value decoded: its closing quote, where it ends in the side room, and how many line breaks it has.
#[derive(Clone, Copy)]
pub struct Coded {
    pub quote: usize,
    pub end: usize,
    pub breaks: usize,
}

// The byte that a rare byte but 13 stands for: a space is a blank.
fn shown_as(b: u8) -> u8
    ensures { result ≡ if (ltb b 32) 32 b }
{
    if b < b' ' { b' ' } else { b }
}

// How many line breaks one byte is.
fn breaks_of(b: u8) -> usize
    ensures { result ≡ count 126 (b ∷ []) }
{
    if b == b'~' { 1 } else { 0 }
}

// The reference whose `&` stands at `e`, if it is surely fine.
fn reference_at(page: &[u8], e: usize) -> Option<Odd>
    requires { (e < length page.now) × (length page.now ≤ page_bytes) × (get_or page.now e 0 ≡ 38) }
    ensures { IfSome result (λ o. OddAt page.now e o.next o.byte) }
{
    let next = reference_end(page, e + 1)?;
    let byte = refers(page, e + 1, next - 1);
    // 0 is the paper's word for a reference that a value may not hold: what may not change.
    if byte == 0 {
        return None;
    }
    Some(Odd { next, byte })
}

// The odd byte at `e`, or the reference that begins there, if it is surely fine.
fn odd_at(page: &[u8], e: usize) -> Option<Odd>
    requires { (e < length page.now) × (length page.now ≤ page_bytes) }
    ensures { IfSome result (λ o. OddAt page.now e o.next o.byte) }
{
    let b = page[e];
    if b == b'&' {
        return reference_at(page, e);
    }
    if b == b'\r' && byte_or(page, e + 1) == b'\n' {
        return Some(Odd {
            next: e + 2,
            byte: b' ',
        });
    }
    if is_rare(b) {
        return Some(Odd {
            next: e + 1,
            byte: shown_as(b),
        });
    }
    None
}

// The value in quotes `q` that begins at `from`, decoded into the side room from `used` on, if it is surely fine. Nothing before that place changes.
pub fn coded_value(
    page: &[u8],
    from: usize,
    q: u8,
    odd: &[u8; 256],
    side: &mut [u8],
    used: usize,
) -> Option<Coded>
    requires { (from ≤ length page.now) × (length page.now ≤ page_bytes) × (odd.now ≡ odd_table) × Quote q × (used ≤ length side.old) × (length side.old < 32768) }
    ensures { IfSome result (λ c. CodedAt page.now side.old side.new from q used c.quote c.end c.breaks) }
{
    let mut i = from;
    let mut n = used;
    let mut breaks = 0;
    while i < page.len() {
        let e = ordinary_end(page, i, odd);
        if e == page.len() || side.len() - n <= e - i {
            return None;
        }
        let m = lay(side, n, &page[i..e]);
        if page[e] == q {
            let end = trimmed(side, used, m);
            return Some(Coded {
                quote: e,
                end,
                breaks,
            });
        }
        let o = odd_at(page, e)?;
        breaks += breaks_of(o.byte);
        side[m] = o.byte;
        n = m + 1;
        i = o.next;
    }
    None
}
