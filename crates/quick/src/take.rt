// The attributes of a start tag, read onto the tape.
ghost use Rattle.std.specs.Prelude.{◌≡◌, ◌+◌, ◌*◌, ◌≤◌, ◌<◌, eqb, length, get_or, set, drop, IfSome};
ghost use Rattle.paper.specs.Lists.{until};
ghost use Rattle.paper.specs.Bytes.{is_space};
ghost use Rattle.paper.specs.Fields.{fields_of};
ghost use Rattle.paper.specs.Sizes.{page_bytes};
ghost use Rattle.fields.specs.Places.{kind_at, kind_count};
ghost use Rattle.tape.specs.Tape.{aside};
ghost use Rattle.quick.specs.Letters.{Names};
ghost use Rattle.quoted.specs.Valued.{Tables};
ghost use Rattle.quick.specs.Taken.{NamedAt, AttrIn, InsideIn};

use crate::attrs::{is_letter, is_quote};
use crate::names::{count_in, field_by, first_in, letter_place};
use fields::places::FIELDS;
use markup::walk::{Set, run};
use quoted::value::take_value;
use room::{byte_or, clear};

// An attribute's name and opening quote: the place of its field among its element's, where its value begins, and the quote.
#[derive(Clone, Copy)]
struct Named {
    field: usize,
    at: usize,
    quote: u8,
}

// How far attributes are read: the place behind them, and how many bytes of the side room are then in use.
#[derive(Clone, Copy)]
pub struct Taken {
    pub at: usize,
    pub used: usize,
}

// Reads any name of an attribute that begins at `a`, and what stands before its value, if it is surely fine.
fn any_name(
    page: &[u8],
    a: usize,
    kind: u8,
    keys: &[u64; FIELDS],
    letters: &[u8; 1280],
) -> Option<Named>
    requires { (a ≤ length page.now) × (length page.now ≤ page_bytes) × (kind < kind_count) × Names keys.now letters.now }
    ensures { IfSome result (λ n. NamedAt page.now (kind_at kind) a n.field n.at n.quote) }
{
    if !is_letter(byte_or(page, a)) {
        return None;
    }
    let e = run(page, a, Set::Names);
    let field = field_by(keys, letters, kind, &page[a..e]);
    if field >= count_in(letters, kind) {
        return None;
    }
    let u = run(page, e, Set::Spaces);
    if byte_or(page, u) != b'=' {
        return None;
    }
    let v = run(page, u + 1, Set::Spaces);
    let quote = byte_or(page, v);
    if is_quote(quote) {
        return Some(Named {
            field,
            at: v + 1,
            quote,
        });
    }
    None
}

// The same; quickly where the name is one letter, and `=` and a quote follow at once.
fn take_name(
    page: &[u8],
    a: usize,
    kind: u8,
    keys: &[u64; FIELDS],
    letters: &[u8; 1280],
) -> Option<Named>
    requires { (a ≤ length page.now) × (length page.now ≤ page_bytes) × (kind < kind_count) × Names keys.now letters.now }
    ensures { IfSome result (λ n. NamedAt page.now (kind_at kind) a n.field n.at n.quote) }
{
    match letter_place(page, a, kind, letters) {
        Some(field) => Some(Named {
            field,
            at: a + 3,
            quote: byte_or(page, a + 2),
        }),
        None => any_name(page, a, kind, keys, letters),
    }
}

// Where the spaces end that begin at `at`; mostly there is none, or one blank.
pub fn spaces_end(page: &[u8], at: usize) -> usize
    ensures { (result ≡ at + until is_space (drop at page.now)) × (at ≤ result) × (at ≤ length page.now → result ≤ length page.now) }
{
    let b = byte_or(page, at);
    if b > 32 {
        return at;
    }
    if b == 32 && byte_or(page, at + 1) > 32 {
        return at + 1;
    }
    run(page, at, Set::Spaces)
}

// Whether nothing stands at a place of the tape.
fn is_free(tape: &[u16], s: usize) -> bool
    requires { s < length tape.now }
    ensures { result ≡ eqb (get_or tape.now s 0) 0 }
{
    tape[s] == 0
}

// Puts two numbers on the tape.
pub fn put(tape: &mut [u16], s: usize, a: usize, b: usize)
    requires { (s + 1 < length tape.old) × (a < 65536) × (b < 65536) }
    ensures { tape.new ≡ set (set tape.old s a) (s + 1) b }
{
    tape[s] = a as u16;
    tape[s + 1] = b as u16;
}

// Reads the attribute that begins at `a` onto the tape, where the slots of its element begin at `base`, if it is surely fine.
fn take_attr(
    page: &[u8],
    a: usize,
    kind: u8,
    keys: &[u64; FIELDS],
    letters: &[u8; 1280],
    odd: &[u8; 256],
    limits: &[u64; FIELDS],
    tape: &mut [u16],
    base: usize,
    side: &mut [u8],
    used: usize,
) -> Option<Taken>
    requires { (a ≤ length page.now) × (length page.now ≤ page_bytes) × (kind < kind_count) × Names keys.now letters.now × Tables odd.now limits.now
        × (base + 2 * length (fields_of (kind_at kind)) ≤ length tape.old) × (length tape.old < 65536) × (used ≤ length side.old) × (length side.old < aside) }
    ensures { IfSome result (λ r. AttrIn page.now (kind_at kind) base a r.at tape.old tape.new side.old side.new used r.used) }
{
    let named = take_name(page, a, kind, keys, letters)?;
    let s = base + 2 * named.field;
    if !is_free(tape, s) {
        return None;
    }
    let id = first_in(letters, kind) + named.field;
    let judged = take_value(page, named.at, named.quote, id, odd, limits, side, used)?;
    put(tape, s, judged.start, judged.end);
    Some(Taken {
        at: judged.quote + 1,
        used: judged.used,
    })
}

// Reads the attributes of a start tag, whose name ends at `from`, onto the tape, if they are surely fine; returns the place of the tag's `>` or `/`.
pub fn take_attrs(
    page: &[u8],
    from: usize,
    kind: u8,
    keys: &[u64; FIELDS],
    letters: &[u8; 1280],
    odd: &[u8; 256],
    limits: &[u64; FIELDS],
    tape: &mut [u16],
    base: usize,
    side: &mut [u8],
    used: usize,
) -> Option<Taken>
    requires { (from ≤ length page.now) × (length page.now ≤ page_bytes) × (kind < kind_count) × Names keys.now letters.now × Tables odd.now limits.now
        × (base + 2 * length (fields_of (kind_at kind)) ≤ length tape.old) × (length tape.old < 65536) × (used ≤ length side.old) × (length side.old < aside) }
    ensures { IfSome result (λ r. InsideIn page.now (kind_at kind) base from r.at tape.old tape.new side.old side.new used r.used) }
{
    clear(tape, base, base + 2 * count_in(letters, kind));
    let mut i = from;
    let mut m = used;
    while i < page.len() {
        let a = spaces_end(page, i);
        let c = byte_or(page, a);
        if c == b'>' || c == b'/' {
            return Some(Taken { at: a, used: m });
        }
        if a == i {
            return None;
        }
        let taken = take_attr(
            page, a, kind, keys, letters, odd, limits, tape, base, side, m,
        )?;
        i = taken.at;
        m = taken.used;
    }
    None
}
