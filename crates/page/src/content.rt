// One page, as its tape tells it: its head, its number and its count, its rows. A page comes here once it is taped, and so has no fault.
ghost use Rattle.std.specs.Prelude.{◌≡◌, ◌&&◌, List, [], eqb, ◌+◌, ◌*◌, ◌≤◌, ◌<◌, length, get_or};
ghost use Rattle.paper.specs.Lists.{same, concat, number};
ghost use Rattle.paper.specs.Fields as Kinds;
ghost use Rattle.paper.specs.Plan.{same_head};
ghost use Rattle.paper.specs.Judging.{or};
ghost use Rattle.paper.specs.Layout.{head_values, row_values, rows_values};
ghost use Rattle.markup.specs.Walk.{tags_at};
ghost use Rattle.fields.specs.Places.{kind_at, count_of, field_at, kind_count};
ghost use Rattle.plan.specs.Numbers.{kind_number, stride};
ghost use Rattle.plan.specs.Records.{paper_kind};
ghost use Rattle.sheet.specs.Content.{part_from, rows_from, head_from, content_of};
ghost use Rattle.sheet.specs.Fit.{Fit};
ghost use Rattle.page.specs.Laying.{Room, Lays, pairs, LaysHead, gives_row, row_from, LaysRow, Fills};
ghost use Rattle.tape.specs.Tape.{Elem, ws_by, values_at, Spans, Lies};
ghost use Rattle.page.specs.Walking.{Read, Walk, PartAt, HeadAt};

use crate::values::{lay_one, lay_slots, number_in, same_slots, value_of};
use fields::lookup::count_of;
use fields::places::{A, M, MP, O, P, R, S, W, X};
use plan::{Kind, Plan, Span, open_row};

// How many numbers stand before an element's values on the tape; the third of them tells where the next element begins.
pub const HEADER: usize = 3;

const NEXT: usize = 2;

// Where the parts of a page's head lie on the tape.
#[derive(Clone, Copy)]
pub struct Places {
    pub mp: usize,
    pub person: usize,
    pub author: usize,
    pub measures: usize,
}

// A head laid into the text: the place behind its values, the patch, and the spans of its fields in writing order.
#[derive(Clone, Copy)]
pub struct HeadLaid {
    pub end: usize,
    pub patch: u32,
    pub spans: [Span; 27],
}

// How far the rows of a page reach: the place in the text behind their values, and the row behind the last of them.
#[derive(Clone, Copy)]
pub struct Filled {
    pub end: usize,
    pub row: usize,
}

// Where the values of the first element of a kind lie on the tape; at its beginning, where all are absent, if there is none.
fn part<'a>(page: &'a [u8], side: &'a [u8], tape: &'a [u16], i: usize, j: usize, kind: u8) -> usize
    requires { Read page.now side.now tape.now i j × (kind < 5) }
    ensures { PartAt page.now side.now tape.now (kind_at kind) result }
{
    let mut f = i;
    while f < j {
        if tape[f] == kind as u16 {
            return f + HEADER;
        }
        f = tape[f + NEXT] as usize;
    }
    0
}

// Where the parts of a page's head lie on the tape.
pub fn find_head<'a>(page: &'a [u8], side: &'a [u8], tape: &'a [u16], i: usize, j: usize) -> Places
    requires { Read page.now side.now tape.now i j }
    ensures { HeadAt page.now side.now tape.now result }
{
    let mp = part(page, side, tape, i, j, MP);
    let person = part(page, side, tape, i, j, P);
    let author = part(page, side, tape, i, j, A);
    let measures = part(page, side, tape, i, j, O);
    Places {
        mp,
        person,
        author,
        measures,
    }
}

// The number that field `k` of MP shows, a field of at most eight digits; 0 if it is absent.
fn mp_number<'a>(page: &'a [u8], side: &'a [u8], tape: &'a [u16], mp: usize, k: usize) -> u32
    requires { PartAt page.now side.now tape.now Kinds.MP mp × Fit (tags_at page.now 0) × (k < 6) × ((field_at k).most ≤ 8) }
    ensures { result ≡ number 0 (get_or (part_from Kinds.MP (tags_at page.now 0)) k []) }
{
    number_in(page, side, tape, mp + 2 * k)
}

// A page number, or 1 where it is absent.
fn or_one(n: u32) -> u32
    ensures { (n ≡ 0 → result ≡ 1) × ((n ≡ 0 → ⊥) → result ≡ n) }
{
    n.max(1)
}

// The number of a page.
pub fn number_of<'a>(page: &'a [u8], side: &'a [u8], tape: &'a [u16], mp: usize) -> u32
    requires { PartAt page.now side.now tape.now Kinds.MP mp × Fit (tags_at page.now 0) }
    ensures { result ≡ (content_of (tags_at page.now 0)).no }
{
    let a = mp_number(page, side, tape, mp, 4);
    or_one(a)
}

// How many pages there are, as the page says.
pub fn count_said<'a>(page: &'a [u8], side: &'a [u8], tape: &'a [u16], mp: usize) -> u32
    requires { PartAt page.now side.now tape.now Kinds.MP mp × Fit (tags_at page.now 0) }
    ensures { result ≡ (content_of (tags_at page.now 0)).of }
{
    let z = mp_number(page, side, tape, mp, 5);
    or_one(z)
}

// The language of a page; that one where it is absent.
fn language<'a>(
    page: &'a [u8],
    side: &'a [u8],
    tape: &'a [u16],
    mp: usize,
    german: &'a [u8],
) -> &'a [u8]
    requires { PartAt page.now side.now tape.now Kinds.MP mp }
    ensures { result.now ≡ or (get_or (part_from Kinds.MP (tags_at page.now 0)) 3 []) german.now }
{
    let s = mp + 6;
    let v = value_of(page, side, tape[s] as usize, tape[s + 1] as usize);
    if v.len() == 0 {
        return german;
    }
    v
}

// The spans that the head's numbers are, two to a span.
fn spans_of(numbers: &[u32; 54]) -> [Span; 27]
    ensures { result ≡ pairs 27 numbers.now }
{
    let mut spans = [Span { at: 0, len: 0 }; 27];
    for j in 0..27 {
        spans[j] = Span {
            at: numbers[2 * j],
            len: numbers[2 * j + 1],
        };
    }
    spans
}

// Lays the head of a page into the text from `n` on: U, l, and the values of P, A and O, in writing order and without gaps.
pub fn lay_head<'a>(
    page: &'a [u8],
    side: &'a [u8],
    tape: &'a [u16],
    h: Places,
    text: &mut [u8],
    n: usize,
) -> HeadLaid
    requires { HeadAt page.now side.now tape.now h × Fit (tags_at page.now 0) × Room (head_values (head_from (tags_at page.now 0))) text.old n }
    ensures { LaysHead (head_from (tags_at page.now 0)) text.old text.new n result.end result.patch result.spans }
{
    let mut numbers = [0u32; 54];
    let patch = mp_number(page, side, tape, h.mp, 1);
    let l = language(page, side, tape, h.mp, b"de-DE");
    let u = lay_slots(page, side, tape, h.mp + 4, 1, text, n, &mut numbers, 0);
    let m = lay_one(l, text, u, &mut numbers, 2);
    let p = lay_slots(
        page,
        side,
        tape,
        h.person,
        count_of(P),
        text,
        m,
        &mut numbers,
        4,
    );
    let a = lay_slots(
        page,
        side,
        tape,
        h.author,
        count_of(A),
        text,
        p,
        &mut numbers,
        20,
    );
    let e = lay_slots(
        page,
        side,
        tape,
        h.measures,
        count_of(O),
        text,
        a,
        &mut numbers,
        40,
    );
    let spans = spans_of(&numbers);
    HeadLaid {
        end: e,
        patch,
        spans,
    }
}

// Whether two pages have the same language.
fn same_language<'a>(
    one: &'a [u8],
    two: &'a [u8],
    side: &'a [u8],
    tape: &'a [u16],
    x: usize,
    y: usize,
    german: &'a [u8],
) -> bool
    requires { PartAt one.now side.now tape.now Kinds.MP x × PartAt two.now side.now tape.now Kinds.MP y }
    ensures { result ≡ same (or (get_or (part_from Kinds.MP (tags_at one.now 0)) 3 []) german.now)
        (or (get_or (part_from Kinds.MP (tags_at two.now 0)) 3 []) german.now) }
{
    let l = language(one, side, tape, x, german);
    let m = language(two, side, tape, y, german);
    l == m
}

// Whether two pages have the same head, told by where its parts lie.
fn same_head<'a>(
    one: &'a [u8],
    two: &'a [u8],
    side: &'a [u8],
    tape: &'a [u16],
    h: Places,
    k: Places,
) -> bool
    requires { HeadAt one.now side.now tape.now h × Fit (tags_at one.now 0) × HeadAt two.now side.now tape.now k × Fit (tags_at two.now 0) }
    ensures { result ≡ same_head (head_from (tags_at two.now 0)) (head_from (tags_at one.now 0)) }
{
    let x = mp_number(two, side, tape, k.mp, 1);
    let y = mp_number(one, side, tape, h.mp, 1);
    x == y
        && same_slots(two, one, side, tape, k.mp + 4, h.mp + 4, 1)
        && same_language(two, one, side, tape, k.mp, h.mp, b"de-DE")
        && same_slots(two, one, side, tape, k.person, h.person, count_of(P))
        && same_slots(two, one, side, tape, k.author, h.author, count_of(A))
        && same_slots(two, one, side, tape, k.measures, h.measures, count_of(O))
}

// Whether two pages have the same count and the same head, told by where its parts lie.
pub fn alike<'a>(
    one: &'a [u8],
    two: &'a [u8],
    side: &'a [u8],
    tape: &'a [u16],
    h: Places,
    k: Places,
) -> bool
    requires { HeadAt one.now side.now tape.now h × Fit (tags_at one.now 0) × HeadAt two.now side.now tape.now k × Fit (tags_at two.now 0) }
    ensures { result ≡ (eqb (content_of (tags_at two.now 0)).of (content_of (tags_at one.now 0)).of
        && same_head (head_from (tags_at two.now 0)) (head_from (tags_at one.now 0))) }
{
    let x = count_said(one, side, tape, h.mp);
    let y = count_said(two, side, tape, k.mp);
    x == y && same_head(one, two, side, tape, h, k)
}

// Whether an element gives a row: an M, an R and an X do, and an S of which c or t is present.
fn gives_row<'a>(page: &'a [u8], side: &'a [u8], tape: &'a [u16], base: usize, kind: u8) -> bool
    requires { (kind < kind_count) × (base + 2 * count_of (kind_at kind) ≤ length tape.now) × Spans page.now (length side.now) (count_of (kind_at kind)) tape.now base }
    ensures { result ≡ gives_row (kind_at kind) (values_at page.now side.now (count_of (kind_at kind)) tape.now base) }
{
    if kind == M || kind == R || kind == X {
        return true;
    }
    if kind != S {
        return false;
    }
    let c = value_of(page, side, tape[base] as usize, tape[base + 1] as usize);
    let s = base + 2;
    let t = value_of(page, side, tape[s] as usize, tape[s + 1] as usize);
    c.len() != 0 || t.len() != 0
}

// How many rows a page gives.
pub fn count_rows<'a>(page: &'a [u8], side: &'a [u8], tape: &'a [u16], i: usize, j: usize) -> usize
    requires { Read page.now side.now tape.now i j }
    ensures { (result ≡ length (rows_from (tags_at page.now 0))) × (result < 65536) }
{
    let mut count = 0;
    let mut f = i;
    while f < j {
        let kind = tape[f] as u8;
        let next = tape[f + NEXT] as usize;
        if gives_row(page, side, tape, f + HEADER, kind) {
            count += 1;
            f = next;
        } else {
            f = next;
        }
    }
    count
}

// Lays the values of the W that follow, before the next element of another kind.
fn lay_ws<'a>(
    page: &'a [u8],
    side: &'a [u8],
    tape: &'a [u16],
    from: usize,
    j: usize,
    text: &mut [u8],
    n: usize,
    numbers: &mut [u32],
    at: usize,
) -> usize
    requires { Walk page.now side.now tape.now from j
        × ((es : List Elem) → Lies page.now side.now (length side.now) tape.now from j es → Room (concat (ws_by es)) text.old n × (at + 4 * length (ws_by es) ≤ length numbers.old)) }
    ensures { (es : List Elem) → Lies page.now side.now (length side.now) tape.now from j es
        → Lays (concat (ws_by es)) text.old text.new n result numbers.old numbers.new at }
{
    let mut f = from;
    let mut m = n;
    let mut b = at;
    while f < j {
        if tape[f] != W as u16 {
            return m;
        }
        m = lay_slots(page, side, tape, f + HEADER, 2, text, m, numbers, b);
        b += 4;
        f = tape[f + NEXT] as usize;
    }
    m
}

// The kind of row that an element gives.
fn row_kind(kind: u8) -> Kind
    requires { kind < kind_count }
    ensures { kind_number (paper_kind result) ≡ kind_number (kind_at kind) }
{
    match kind {
        S => Kind::Heading,
        M => Kind::Medication,
        R => Kind::Recipe,
        X => Kind::Note,
        _ => Kind::Unknown,
    }
}

// Lays a medication as row r: its package number, its values, and those of its W, which come next.
fn lay_medication<'a>(
    page: &'a [u8],
    side: &'a [u8],
    tape: &'a [u16],
    base: usize,
    next: usize,
    j: usize,
    text: &mut [u8],
    n: usize,
    rows: &mut [u32],
    r: usize,
) -> usize
    requires { (base + 28 ≤ length tape.now) × Spans page.now (length side.now) 14 tape.now base × (length (get_or (values_at page.now side.now 14 tape.now base) 0 []) ≤ 8)
        × Walk page.now side.now tape.now next j × ((r + 1) * stride ≤ length rows.old)
        × ((es : List Elem) → Lies page.now side.now (length side.now) tape.now next j es
        → (length (ws_by es) ≤ 3) × Room (row_values (row_from Kinds.M (values_at page.now side.now 14 tape.now base) (ws_by es))) text.old n) }
    ensures { (es : List Elem) → Lies page.now side.now (length side.now) tape.now next j es
        → LaysRow (row_from Kinds.M (values_at page.now side.now 14 tape.now base) (ws_by es)) text.old text.new n result
        rows.old rows.new r }
{
    let p = number_in(page, side, tape, base);
    open_row(rows, r, Kind::Medication, p);
    let m = lay_slots(
        page,
        side,
        tape,
        base + 2,
        13,
        text,
        n,
        rows,
        r * Plan::STRIDE + 2,
    );
    lay_ws(
        page,
        side,
        tape,
        next,
        j,
        text,
        m,
        rows,
        r * Plan::STRIDE + 28,
    )
}

// Lays a heading, a recipe or a note as row r.
fn lay_plain<'a>(
    page: &'a [u8],
    side: &'a [u8],
    tape: &'a [u16],
    base: usize,
    kind: u8,
    text: &mut [u8],
    n: usize,
    rows: &mut [u32],
    r: usize,
) -> usize
    requires { (kind < kind_count) × (kind ≡ 6 → ⊥) × (base + 2 * count_of (kind_at kind) ≤ length tape.now)
        × Spans page.now (length side.now) (count_of (kind_at kind)) tape.now base
        × Room (row_values (row_from (kind_at kind) (values_at page.now side.now (count_of (kind_at kind)) tape.now base) [])) text.old n × ((r + 1) * stride ≤ length rows.old) }
    ensures { LaysRow (row_from (kind_at kind) (values_at page.now side.now (count_of (kind_at kind)) tape.now base) [])
        text.old text.new n result rows.old rows.new r }
{
    let k = row_kind(kind);
    let count = count_of(kind);
    open_row(rows, r, k, 0);
    lay_slots(
        page,
        side,
        tape,
        base,
        count,
        text,
        n,
        rows,
        r * Plan::STRIDE + 2,
    )
}

// Lays the rows of a page: their records into the rows from row r on, and their values into the text from `n` on.
pub fn fill_rows<'a>(
    page: &'a [u8],
    side: &'a [u8],
    tape: &'a [u16],
    i: usize,
    j: usize,
    rows: &mut [u32],
    text: &mut [u8],
    n: usize,
    r: usize,
) -> Filled
    requires { Read page.now side.now tape.now i j
        × Room (rows_values (rows_from (tags_at page.now 0))) text.old n × ((r + length (rows_from (tags_at page.now 0))) * stride ≤ length rows.old) }
    ensures { Fills (rows_from (tags_at page.now 0)) text.old text.new n result.end
        rows.old rows.new r result.row }
{
    let mut m = n;
    let mut k = r;
    let mut f = i;
    while f < j {
        let kind = tape[f] as u8;
        let next = tape[f + NEXT] as usize;
        if kind == M {
            m = lay_medication(page, side, tape, f + HEADER, next, j, text, m, rows, k);
            k += 1;
            f = next;
        } else if gives_row(page, side, tape, f + HEADER, kind) {
            m = lay_plain(page, side, tape, f + HEADER, kind, text, m, rows, k);
            k += 1;
            f = next;
        } else {
            f = next;
        }
    }
    Filled { end: m, row: k }
}
