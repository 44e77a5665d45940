// Spelling: the rows, the head and the pages of a plan in numbers, spelled as document 01's fresh pages into the lent room. Each function returns the place
// behind what it wrote, and all other bytes of the room stay.
ghost use Rattle.std.specs.Prelude.{◌≡◌, true, ◌++◌, ◌+◌, ◌*◌, ◌≤◌, length};
ghost use Rattle.paper.specs.Lists.{every};
ghost use Rattle.paper.specs.Fields.{S, is};
ghost use Rattle.fields.specs.Columns.{key_column};
ghost use Rattle.plan.specs.Numbers.{record_at, show_row, show_head, in_text, within, stride};
ghost use Rattle.plan.specs.Records.{paper_kind, paper_dose};
ghost use Rattle.sound.specs.Sound.{head_sound, record_sound};
ghost use Rattle.room.specs.Written.{Wrote};
ghost use Rattle.room.specs.Numbered.{spans_at};
ghost use Rattle.writer.specs.Spelling.{row_text, head_text, people_text};
ghost use Rattle.writer.specs.Tags.{dose_text, dose_within, substance_text, end_text, medication_text, start_text, measures_part, gap_text, placed_text, rows_page, Opened};

use crate::tags::{lay_field, lay_fields, lay_number, lay_tag};
use fields::places::{
    A_LANR, M_A, M_D, M_DU, M_H, M_M, M_T, M_V, MP_U, O_AI, P_G, R_T, S_C, W_W, X_T,
};
use plan::{Dose, Kind, Plan, head_numbers, kind_at, row_at};
use room::lay;
use sound::elements::all_absent;

// Writes the attributes of a dose: the times of day that are present, or the free text, or nothing.
fn lay_dose(out: &mut [u8], at: usize, keys: &[u64], dose: Dose, text: &[u8]) -> usize
    requires { (keys.now ≡ key_column)
        × (dose_within (length text.now) dose ≡ true)
        × (at + length (dose_text (paper_dose text.now dose)) ≤ length out.old) }
    ensures { Wrote out.old out.new at result (dose_text (paper_dose text.now dose)) }
{
    match dose {
        Dose::Scheme(x) => {
            let a = lay_field(out, at, keys[M_M], text, x.morning);
            let b = lay_field(out, a, keys[M_D], text, x.midday);
            let c = lay_field(out, b, keys[M_V], text, x.evening);
            lay_field(out, c, keys[M_H], text, x.night)
        }
        Dose::Free(s) => lay_field(out, at, keys[M_T], text, s),
        Dose::Unstated => at,
    }
}

// Writes a W whose two spans begin at place `from` of the rows; an absent one has nothing.
fn lay_substance(
    out: &mut [u8],
    at: usize,
    keys: &[u64],
    rows: &[u32],
    from: usize,
    text: &[u8],
) -> usize
    requires { (keys.now ≡ key_column)
        × (from + 4 ≤ length rows.now)
        × (every (within (length text.now)) (spans_at 2 from rows.now) ≡ true)
        × (at + length (substance_text text.now from rows.now) ≤ length out.old) }
    ensures { Wrote out.old out.new at result (substance_text text.now from rows.now) }
{
    if rows[from + 1] == 0 {
        return at;
    }
    lay_tag(out, at, b"<W", keys, W_W, 2, text, rows, from, b"/>")
}

// Writes how a medication ends whose first W begins at place `from` of the rows: `/>` without a W, else up to three W and the end tag.
fn lay_end(out: &mut [u8], at: usize, keys: &[u64], rows: &[u32], from: usize, text: &[u8]) -> usize
    requires { (keys.now ≡ key_column)
        × (from + 12 ≤ length rows.now)
        × (every (within (length text.now)) (spans_at 6 from rows.now) ≡ true)
        × (at + length (end_text text.now from rows.now) ≤ length out.old) }
    ensures { Wrote out.old out.new at result (end_text text.now from rows.now) }
{
    if rows[from + 1] == 0 {
        return lay(out, at, b"/>");
    }
    out[at] = b'>';
    let a = lay_substance(out, at + 1, keys, rows, from, text);
    let b = lay_substance(out, a, keys, rows, from + 4, text);
    let c = lay_substance(out, b, keys, rows, from + 8, text);
    lay(out, c, b"</M>")
}

// Writes the medication of row i: its package number, its fields before the dose, the dose, its fields behind it, and its W.
fn lay_medication(
    out: &mut [u8],
    at: usize,
    keys: &[u64],
    rows: &[u32],
    i: usize,
    text: &[u8],
) -> usize
    requires { (keys.now ≡ key_column)
        × ((i + 1) * stride ≤ length rows.now)
        × (in_text text.now (record_at rows.now i) ≡ true)
        × (at + length (medication_text text.now rows.now i) ≤ length out.old) }
    ensures { Wrote out.old out.new at result (medication_text text.now rows.now i) }
{
    let row = row_at(rows, i);
    let dose = row.dose;
    let first = i * Plan::STRIDE + 2;
    let behind = first + 16;
    let substances = first + 26;
    let a = lay(out, at, b"<M");
    let b = lay_number(out, a, row.package);
    let c = lay_fields(out, b, keys, M_A, 3, text, rows, first);
    let d = lay_dose(out, c, keys, dose, text);
    let e = lay_fields(out, d, keys, M_DU, 5, text, rows, behind);
    lay_end(out, e, keys, rows, substances, text)
}

// Writes row i, whose kind is given: a heading's start tag, or the row whole.
fn lay_kind(
    out: &mut [u8],
    at: usize,
    keys: &[u64],
    kind: Kind,
    rows: &[u32],
    i: usize,
    text: &[u8],
) -> usize
    requires { (keys.now ≡ key_column)
        × ((i + 1) * stride ≤ length rows.now)
        × (record_sound text.now (record_at rows.now i) ≡ true)
        × (paper_kind kind ≡ (show_row text.now (record_at rows.now i)).kind)
        × (at + length (row_text (show_row text.now (record_at rows.now i))) ≤ length out.old) }
    ensures { Wrote out.old out.new at result (row_text (show_row text.now (record_at rows.now i))) }
{
    let k = i * Plan::STRIDE + 2;
    match kind {
        Kind::Heading => lay_tag(out, at, b"<S", keys, S_C, 2, text, rows, k, b">"),
        Kind::Medication => lay_medication(out, at, keys, rows, i, text),
        Kind::Recipe => lay_tag(out, at, b"<R", keys, R_T, 2, text, rows, k, b"/>"),
        Kind::Note => lay_tag(out, at, b"<X", keys, X_T, 1, text, rows, k, b"/>"),
        Kind::Unknown => at,
    }
}

// Writes the start tag of MP on page a of z; the spans of U and l stand from place 2 of the numbers on.
fn lay_start(
    out: &mut [u8],
    at: usize,
    keys: &[u64],
    patch: u32,
    a: u8,
    z: u8,
    text: &[u8],
    numbers: &[u32],
) -> usize
    requires { (keys.now ≡ key_column)
        × (a ≤ 9)
        × (z ≤ 9)
        × (6 ≤ length numbers.now)
        × (every (within (length text.now)) (spans_at 2 2 numbers.now) ≡ true)
        × (at + length (start_text patch a z text.now numbers.now) ≤ length out.old) }
    ensures { Wrote out.old out.new at result (start_text patch a z text.now numbers.now) }
{
    let begun = lay(out, at, b"<MP v=\"027\"");
    let patched = lay_number(out, begun, patch);
    let named = lay_fields(out, patched, keys, MP_U, 2, text, numbers, 2);
    let last = [
        b' ',
        b'a',
        b'=',
        b'"',
        b'0' + a,
        b'"',
        b' ',
        b'z',
        b'=',
        b'"',
        b'0' + z,
        b'"',
        b'>',
    ];
    lay(out, named, &last)
}

// Writes O, if it has a field. Its spans are those from span 20 of the head on.
fn lay_measures(out: &mut [u8], at: usize, keys: &[u64], text: &[u8], numbers: &[u32]) -> usize
    requires { (keys.now ≡ key_column)
        × (56 ≤ length numbers.now)
        × (every (within (length text.now)) (spans_at 7 42 numbers.now) ≡ true)
        × (at + length (measures_part text.now 42 numbers.now) ≤ length out.old) }
    ensures { Wrote out.old out.new at result (measures_part text.now 42 numbers.now) }
{
    if all_absent(numbers, 20, 7) {
        return at;
    }
    lay_tag(out, at, b"<O", keys, O_AI, 7, text, numbers, 42, b"/>")
}

// Writes P, A and O, which are the same on all pages.
pub fn lay_people(out: &mut [u8], at: usize, keys: &[u64], plan: Plan, text: &[u8]) -> usize
    requires { (keys.now ≡ key_column)
        × (head_sound text.now plan ≡ true)
        × (at + length (people_text (show_head text.now plan)) ≤ length out.old) }
    ensures { Wrote out.old out.new at result (people_text (show_head text.now plan)) }
{
    let head = plan.head;
    let numbers = head_numbers(head);
    let b = lay_tag(out, at, b"<P", keys, P_G, 8, text, &numbers, 6, b"/>");
    let o = lay_tag(out, b, b"<A", keys, A_LANR, 10, text, &numbers, 22, b"/>");
    lay_measures(out, o, keys, text, &numbers)
}

// Writes page a of z up to its rows; P, A and O are given as they are spelled.
fn lay_front(
    out: &mut [u8],
    at: usize,
    keys: &[u64],
    plan: Plan,
    a: u8,
    z: u8,
    text: &[u8],
    people: &[u8],
) -> usize
    requires { (keys.now ≡ key_column)
        × (head_sound text.now plan ≡ true)
        × (a ≤ 9)
        × (z ≤ 9)
        × (people.now ≡ people_text (show_head text.now plan))
        × (at + length (head_text (show_head text.now plan) a z) ≤ length out.old) }
    ensures { Wrote out.old out.new at result (head_text (show_head text.now plan) a z) }
{
    let head = plan.head;
    let numbers = head_numbers(head);
    let b = lay_start(out, at, keys, plan.patch, a, z, text, &numbers);
    lay(out, b, people)
}

// Whether a row of this kind is a heading.
pub fn heads(kind: Kind) -> bool
    ensures { result ≡ is (paper_kind kind) S }
{
    matches!(kind, Kind::Heading)
}

// Writes what stands before a row: before a heading the end of the S that is open, before another row the start of an S if none is open.
fn lay_gap(out: &mut [u8], at: usize, inside: bool, heading: bool) -> usize
    requires { at + length (gap_text inside heading) ≤ length out.old }
    ensures { Wrote out.old out.new at result (gap_text inside heading) }
{
    match (inside, heading) {
        (true, true) => lay(out, at, b"</S>"),
        (false, false) => lay(out, at, b"<S>"),
        _ => at,
    }
}

// Writes row i on a page, behind what stands before it; `inside` says that an S is open.
pub fn lay_placed(
    out: &mut [u8],
    at: usize,
    keys: &[u64],
    rows: &[u32],
    i: usize,
    inside: bool,
    text: &[u8],
) -> usize
    requires { (keys.now ≡ key_column)
        × ((i + 1) * stride ≤ length rows.now)
        × (record_sound text.now (record_at rows.now i) ≡ true)
        × (at + length (placed_text inside (show_row text.now (record_at rows.now i))) ≤ length out.old) }
    ensures { Wrote out.old out.new at result (placed_text inside (show_row text.now (record_at rows.now i))) }
{
    let kind = kind_at(rows, i);
    let heading = heads(kind);
    let a = lay_gap(out, at, inside, heading);
    lay_kind(out, a, keys, kind, rows, i, text)
}

// Writes the rows of a page and its end. The rows are given as they are spelled behind others; `heading` says that the first of them is a heading.
fn lay_rows(out: &mut [u8], at: usize, placed: &[u8], heading: bool) -> usize
    requires { Opened heading placed.now
        × (at + length (rows_page heading placed.now) ≤ length out.old) }
    ensures { Wrote out.old out.new at result (rows_page heading placed.now) }
{
    if placed.is_empty() {
        return lay(out, at, b"</MP>");
    }
    if heading {
        let a = lay(out, at, &placed[4..]);
        return lay(out, a, b"</S></MP>");
    }
    let b = lay(out, at, b"<S>");
    let c = lay(out, b, placed);
    lay(out, c, b"</S></MP>")
}

// Writes page a of z; P, A and O and its rows are given as they are spelled.
pub fn lay_page(
    out: &mut [u8],
    at: usize,
    keys: &[u64],
    plan: Plan,
    a: u8,
    z: u8,
    text: &[u8],
    people: &[u8],
    placed: &[u8],
    heading: bool,
) -> usize
    requires { (keys.now ≡ key_column)
        × (head_sound text.now plan ≡ true)
        × (a ≤ 9)
        × (z ≤ 9)
        × (people.now ≡ people_text (show_head text.now plan))
        × Opened heading placed.now
        × (at + length (head_text (show_head text.now plan) a z ++ rows_page heading placed.now) ≤ length out.old) }
    ensures { Wrote out.old out.new at result (head_text (show_head text.now plan) a z ++ rows_page heading placed.now) }
{
    let b = lay_front(out, at, keys, plan, a, z, text, people);
    lay_rows(out, b, placed, heading)
}
