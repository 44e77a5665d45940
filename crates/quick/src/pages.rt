// A page onto the tape: its elements in order, if it is surely a sheet.
ghost use Rattle.std.specs.Prelude.{◌≡◌, List, ℕ, ◌+◌, ◌*◌, ◌≤◌, ◌<◌, length, drop, get_or, set, IfSome};
ghost use Rattle.paper.specs.Lists.{until};
ghost use Rattle.paper.specs.Bytes.{is_space};
ghost use Rattle.paper.specs.Sizes.{page_bytes};
ghost use Rattle.sheet.specs.Judged.{Sound};
ghost use Rattle.fields.specs.Places.{kind_at, kind_count};
ghost use Rattle.tape.specs.Tape.{aside, Makes};
ghost use Rattle.quick.specs.Letters.{Names};
ghost use Rattle.quoted.specs.Valued.{Tables};
ghost use Rattle.quick.specs.Taken.{TagIn};
ghost use Rattle.quick.specs.Stepped.{StepIn, EndAt, On};

use crate::fits::{needs_w, tag_fits};
use crate::names::count_in;
use crate::tags::{kid, name_behind};
use crate::take::{put, spaces_end, take_attrs};
use fields::places::{FIELDS, MP};
use room::byte_or;
use sheet::state::{State, bars, before, close, enter_for, finish};
use tape::exact::Made;

// How many numbers stand before an element's values on the tape.
const HEADER: usize = 3;

// A start tag taken: the place of its `>` or `/`, how many bytes of the side room are in use, where the next element begins on the tape, and whether the
// element needs a W.
#[derive(Clone, Copy)]
pub struct Tag {
    pub at: usize,
    pub used: usize,
    pub next: usize,
    pub needs: bool,
}

// Puts the three numbers of an element's header on the tape.
fn put_header(tape: &mut [u16], f: usize, kind: u8, place: usize, next: usize)
    requires { (f + 2 < length tape.old) × (place < 65536) × (next < 65536) }
    ensures { tape.new ≡ set (set (set tape.old f kind) (f + 1) place) (f + 2) next }
{
    put(tape, f, kind as usize, place);
    tape[f + 2] = next as u16;
}

// Reads the start tag whose `<` stands at `p` and whose name ends at `from` onto the tape, as an element that begins at `f`, if it is surely fine.
pub fn take_tag(
    page: &[u8],
    p: usize,
    from: usize,
    kind: u8,
    keys: &[u64; FIELDS],
    letters: &[u8; 1280],
    odd: &[u8; 256],
    limits: &[u64; FIELDS],
    tape: &mut [u16],
    f: usize,
    side: &mut [u8],
    used: usize,
) -> Option<Tag>
    requires { (p < from) × (from ≤ length page.now) × (length page.now ≤ page_bytes) × (kind < kind_count) × Names keys.now letters.now × Tables odd.now limits.now
        × (f ≤ length tape.old) × (length tape.old < 65536) × (used ≤ length side.old) × (length side.old < aside) }
    ensures { IfSome result (λ g. TagIn page.now (kind_at kind) f p from g.at tape.old tape.new side.old side.new used g.used g.next g.needs) }
{
    let base = f + HEADER;
    let next = base + 2 * count_in(letters, kind);
    if next > tape.len() {
        return None;
    }
    put_header(tape, f, kind, p, next);
    let taken = take_attrs(
        page, from, kind, keys, letters, odd, limits, tape, base, side, used,
    )?;
    if tag_fits(page, kind, tape, base, side) {
        return Some(Tag {
            at: taken.at,
            used: taken.used,
            next,
            needs: needs_w(kind, tape, base),
        });
    }
    None
}

// A start tag passed: the place behind it, where the next element begins on the tape, how many bytes of the side room are in use, and what is then known of
// the page.
#[derive(Clone, Copy)]
struct Step {
    at: usize,
    next: usize,
    used: usize,
    st: State,
}

// Passes the start tag whose `<` stands at `s` behind spaces from `i` on, where an element is open, if it is surely fine.
fn take_start(
    page: &[u8],
    i: usize,
    s: usize,
    st: State,
    keys: &[u64; FIELDS],
    letters: &[u8; 1280],
    odd: &[u8; 256],
    limits: &[u64; FIELDS],
    tape: &mut [u16],
    f: usize,
    side: &mut [u8],
    used: usize,
) -> Option<Step>
    requires { (s ≡ i + until is_space (drop i page.now)) × (i ≤ s) × (s < length page.now) × (get_or page.now s 0 ≡ 60) × (length page.now ≤ page_bytes) × Sound st × Names keys.now letters.now
        × Tables odd.now limits.now × (f ≤ length tape.old) × (length tape.old < 65536) × (used ≤ length side.old) × (length side.old < aside) }
    ensures { IfSome result (λ r. StepIn page.now i r.at st r.st tape.old tape.new f r.next side.old side.new used r.used) }
{
    let k = kid(st.cur, byte_or(page, s + 1))?;
    if bars(st, k) {
        return None;
    }
    let tag = take_tag(
        page,
        s,
        s + 2,
        k,
        keys,
        letters,
        odd,
        limits,
        tape,
        f,
        side,
        used,
    )?;
    let shut = page[tag.at] == b'/';
    let x = if shut { tag.at + 1 } else { tag.at };
    if byte_or(page, x) != b'>' {
        return None;
    }
    Some(Step {
        at: x + 1,
        next: tag.next,
        used: tag.used,
        st: enter_for(st, k, s as u16, None, tag.needs, shut),
    })
}

// The place behind the end tag of the open element whose `<` stands at `s`, if no other tag stands there.
fn end_behind(page: &[u8], s: usize, cur: u8) -> Option<usize>
    requires { (s + 1 < length page.now) × (length page.now ≤ page_bytes) × (cur ≡ 0 → ⊥) }
    ensures { IfSome result (λ r. EndAt page.now s cur r) }
{
    let n = name_behind(page, s + 2, cur)?;
    let g = spaces_end(page, n);
    if byte_or(page, g) == b'>' {
        Some(g + 1)
    } else {
        None
    }
}

// Passes the start tag of a page's element, which must be MP, if it is surely fine.
fn take_root(
    page: &[u8],
    keys: &[u64; FIELDS],
    letters: &[u8; 1280],
    odd: &[u8; 256],
    limits: &[u64; FIELDS],
    tape: &mut [u16],
    first: usize,
    side: &mut [u8],
    used: usize,
) -> Option<Step>
    requires { (1 ≤ length page.now) × (length page.now ≤ page_bytes) × Names keys.now letters.now × Tables odd.now limits.now
        × (first ≤ length tape.old) × (length tape.old < 65536) × (used ≤ length side.old) × (length side.old < aside) }
    ensures { IfSome result (λ r. On page.now tape.old tape.new side.old side.new used r.used first r.next r.at r.st) }
{
    let p = spaces_end(page, 0);
    if byte_or(page, p) != b'<' {
        return None;
    }
    let e = name_behind(page, p + 1, MP)?;
    let tag = take_tag(
        page, p, e, MP, keys, letters, odd, limits, tape, first, side, used,
    )?;
    if page[tag.at] != b'>' {
        return None;
    }
    Some(Step {
        at: tag.at + 1,
        next: tag.next,
        used: tag.used,
        st: enter_for(before(), MP, p as u16, None, tag.needs, false),
    })
}

// Takes a page onto the tape, from `first` on, if it is surely a sheet.
pub fn take_page(
    page: &[u8],
    keys: &[u64; FIELDS],
    letters: &[u8; 1280],
    odd: &[u8; 256],
    limits: &[u64; FIELDS],
    tape: &mut [u16],
    first: usize,
    side: &mut [u8],
    used: usize,
) -> Option<Made>
    requires { (1 ≤ length page.now) × (length page.now ≤ page_bytes) × Names keys.now letters.now × Tables odd.now limits.now
        × (first ≤ length tape.old) × (length tape.old < 65536) × (used ≤ length side.old) × (length side.old < aside) }
    ensures { IfSome result (λ r. Makes page.now tape.old tape.new first r.end side.old side.new used r.used
        × (r.used ≤ used + length page.now)) }
{
    let root = take_root(page, keys, letters, odd, limits, tape, first, side, used)?;
    let mut st = root.st;
    let mut i = root.at;
    let mut f = root.next;
    let mut m = root.used;
    while st.cur != 0 {
        let s = spaces_end(page, i);
        if byte_or(page, s) != b'<' {
            return None;
        }
        if byte_or(page, s + 1) == b'/' {
            i = end_behind(page, s, st.cur)?;
            st = close(st);
        } else {
            let step = take_start(page, i, s, st, keys, letters, odd, limits, tape, f, side, m)?;
            st = step.st;
            i = step.at;
            f = step.next;
            m = step.used;
        }
    }
    if spaces_end(page, i) == page.len() && finish(st).is_none() {
        return Some(Made { end: f, used: m });
    }
    None
}
