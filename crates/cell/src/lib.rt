// The text of a printed cell: the plan's own value, else the catalogue's text, as a part of the one or the other, cut where it is too long. Any rows, text,
// catalogue and numbers may be handed in. specs/Numbered.antt says which cell of document 01 each call asks for, specs/Answers.antt what is answered.
#![tactic(auto)]

pub mod answer;

ghost use Rattle.std.specs.Prelude.{◌≡◌, true, ◌+◌, ◌≤◌, length, drop};
ghost use Rattle.paper.specs.Cells.{shown_of};
ghost use Rattle.plan.specs.Numbers.{paper_span, within};
ghost use Rattle.cell.specs.Numbered.{field_of, row_there};
ghost use Rattle.cell.specs.Answers.{values_of, values_at, slice_of, text_in};
ghost use Rattle.cell.specs.Found.{text_found, dose_found, time_of, time_found, free_found, three_found, field_found, is_medication, found, Roomy, whole_shown, first_place, cut_shown, shown_found};

use crate::answer::{NoCell, Shown, Source};
use plan::{Dose, Kind, Plan, Row, Span, Times, row_at};
use room::{lies_in, wide};

// Which cell of a row is asked for: the number of a field, and for substance and strength which of three.
#[derive(Clone, Copy, PartialEq, Eq)]
pub struct Field {
    pub number: u32,
    pub which: usize,
}

impl Field {
    // The numbers of the fields; any other number is a field that does not exist.
    pub const NAME: u32 = 1;

    pub const SUBSTANCE: u32 = 2;

    pub const STRENGTH: u32 = 3;

    pub const FORM: u32 = 4;

    pub const MORNING: u32 = 5;

    pub const MIDDAY: u32 = 6;

    pub const EVENING: u32 = 7;

    pub const NIGHT: u32 = 8;

    pub const FREE_DOSE: u32 = 9;
}

// A cell as it is found in a plan's numbers: the range of the plan's own value, the limit, and whether 0 is printed. A cell without a limit is never cut and
// takes nothing from the catalogue.
#[derive(Clone, Copy, PartialEq, Eq)]
pub struct Cell {
    pub own: Span,
    pub limit: usize,
    pub zero: bool,
}

impl Cell {
    // The limits: the most bytes of a text that are shown without "...".
    pub const NAME: usize = 50;

    pub const SUBSTANCE: usize = 80;

    pub const STRENGTH: usize = 15;

    pub const FORM: usize = 7;
    // No limit: dose cells are never cut.
    pub const DOSE: usize = 0;
    // The room that "..." takes of a cell that is cut.
    pub const DOTS: usize = 3;
    // How many of the last bytes before that room are looked at for a blank to cut before.
    pub const BACK: usize = 10;
}

// The value that is not there.
const ABSENT: Span = Span { at: 0, len: 0 };

// A cell that shows a value or the catalogue's text, up to a limit.
fn text_cell(own: Span, limit: usize) -> Cell
    ensures { result ≡ text_found own limit }
{
    Cell {
        own,
        limit,
        zero: false,
    }
}

// A cell that shows a dose.
fn dose_cell(own: Span, zero: bool) -> Cell
    ensures { result ≡ dose_found own zero }
{
    Cell {
        own,
        limit: Cell::DOSE,
        zero,
    }
}

// The time of day of a field's number; the last for any number above the third's.
fn time_of(x: Times, number: u32) -> Span
    ensures { result ≡ time_of number x }
{
    match number {
        Field::MORNING => x.morning,
        Field::MIDDAY => x.midday,
        Field::EVENING => x.evening,
        _ => x.night,
    }
}

// The cell of a time of day. An absent time is empty, with the mark that 0 is printed: another time is there, or the dose would not be a scheme.
fn time_cell(dose: Dose, number: u32) -> Cell
    ensures { result ≡ time_found (time_of number) dose }
{
    match dose {
        Dose::Scheme(x) => {
            let s = time_of(x, number);
            dose_cell(s, s.len == 0)
        }
        Dose::Free(_) => dose_cell(ABSENT, false),
        Dose::Unstated => dose_cell(ABSENT, false),
    }
}

// The cell of a dose as free text.
fn free_cell(dose: Dose) -> Cell
    ensures { result ≡ free_found dose }
{
    match dose {
        Dose::Free(s) => dose_cell(s, false),
        Dose::Unstated | Dose::Scheme(_) => dose_cell(ABSENT, false),
    }
}

// The cell of one of three, whose values are every second text of a row from `first` on; there is none of any other.
fn three_cell(texts: [Span; 14], first: usize, which: usize, limit: usize) -> Option<Cell>
    requires { first ≤ 7 }
    ensures { result ≡ three_found texts first which limit }
{
    match which {
        1..=3 => Some(text_cell(texts[first + 2 * which], limit)),
        _ => None,
    }
}

// The cell of a medication's field. The texts of a row are a, f, fd and so on, w and s of its first W from 8 on; f, the form's code, is no text.
fn field_cell(row: Row, f: Field) -> Option<Cell>
    ensures { result ≡ field_found row (field_of f.number f.which) }
{
    match f.number {
        Field::NAME => Some(text_cell(row.texts[0], Cell::NAME)),
        Field::SUBSTANCE => three_cell(row.texts, 6, f.which, Cell::SUBSTANCE),
        Field::STRENGTH => three_cell(row.texts, 7, f.which, Cell::STRENGTH),
        Field::FORM => Some(text_cell(row.texts[2], Cell::FORM)),
        Field::MORNING => Some(time_cell(row.dose, Field::MORNING)),
        Field::MIDDAY => Some(time_cell(row.dose, Field::MIDDAY)),
        Field::EVENING => Some(time_cell(row.dose, Field::EVENING)),
        Field::NIGHT => Some(time_cell(row.dose, Field::NIGHT)),
        Field::FREE_DOSE => Some(free_cell(row.dose)),
        _ => None,
    }
}

// Whether a row is there: its number, counted from 1, is not above the row count, and its record lies in the lent rows.
fn is_there(rows: &[u32], count: usize, row: usize) -> bool
    ensures { result ≡ row_there rows.now count row }
{
    1 <= row && row <= count && row <= rows.len() / Plan::STRIDE
}

// Whether a row of that kind is a medication; no other row has cells.
fn is_medication(kind: Kind) -> bool
    ensures { result ≡ is_medication kind }
{
    matches!(kind, Kind::Medication)
}

// Whether a value is absent or lies in a text of so many bytes.
fn is_within(s: Span, size: usize) -> bool
    ensures { result ≡ within size (paper_span s) }
{
    s.len == 0 || lies_in(size, wide(s.at), wide(s.len))
}

// The cell of a row's field, where the text has so many bytes.
#[tactic(auto, unfolding(crate::specs::Found::found))]
fn find(
    rows: &[u32],
    count: usize,
    size: usize,
    row: usize,
    field: u32,
    which: usize,
) -> Option<Cell>
    ensures { result ≡ found rows.now count size row (field_of field which) }
{
    if !is_there(rows, count, row) {
        return None;
    }
    let r = row_at(rows, row - 1);
    if !is_medication(r.kind) {
        return None;
    }
    let f = Field {
        number: field,
        which,
    };
    let c = field_cell(r, f)?;
    if !is_within(c.own, size) {
        return None;
    }
    Some(c)
}

// What a cell shows that shows a text whole.
fn whole(source: Source, at: usize, len: usize, zero: bool) -> Shown
    ensures { result ≡ whole_shown source «at» len zero }
{
    Shown {
        source,
        at,
        len,
        more: false,
        omitted: 0,
        zero,
    }
}

// Where `most` bytes have room, the first place whose blank a text may be cut before: one of the last ten, and not the very first byte.
fn first_place(most: usize) -> usize
    ensures { result ≡ first_place most }
{
    if most <= Cell::BACK {
        return 1;
    }
    most - Cell::BACK
}

// How many bytes are shown of a text that begins at `at` and is longer than its limit: those before the last such blank, else as many as leave room for "...".
fn shown_of(buffer: &[u8], at: usize, limit: usize) -> usize
    requires { (3 ≤ limit) × («at» + limit ≤ length buffer.now) }
    ensures { result ≡ shown_of limit (drop «at» buffer.now) }
{
    let most = limit - Cell::DOTS;
    let first = first_place(most);
    for p in (first..most).rev() {
        if buffer[at + p] == b' ' {
            return p;
        }
    }
    most
}

// What a cell with a limit shows of a text: all of it, or its beginning where it is longer than the limit.
fn cut(source: Source, buffer: &[u8], at: usize, len: usize, limit: usize) -> Shown
    requires { (3 ≤ limit) × («at» + len ≤ length buffer.now) }
    ensures { result ≡ cut_shown source buffer.now «at» len limit }
{
    if len <= limit {
        return whole(source, at, len, false);
    }
    let shown = shown_of(buffer, at, limit);
    Shown {
        source,
        at,
        len: shown,
        more: true,
        omitted: len - shown,
        zero: false,
    }
}

// What a cell shows that is found, with its text and its catalogue.
fn shown<'a>(c: Cell, text: &'a [u8], catalogue: &'a [u8]) -> Shown
    requires { (Roomy c) × (within (length text.now) (paper_span c.own) ≡ true) }
    ensures { result ≡ shown_found text.now catalogue.now c }
{
    let at = wide(c.own.at);
    let len = wide(c.own.len);
    if c.limit == Cell::DOSE {
        if len == 0 {
            return whole(Source::Neither, 0, 0, c.zero);
        }
        return whole(Source::Plan, at, len, c.zero);
    }
    if len > 0 {
        return cut(Source::Plan, text, at, len, c.limit);
    }
    if catalogue.len() > 0 {
        return cut(Source::Catalogue, catalogue, 0, catalogue.len(), c.limit);
    }
    whole(Source::Neither, 0, 0, false)
}

// What the cell shows, in numbers, or the refusal.
pub fn cell_answer<'a>(
    rows: &'a [u32],
    count: usize,
    text: &'a [u8],
    catalogue: &'a [u8],
    row: usize,
    field: u32,
    which: usize,
) -> Result<Shown, NoCell>
    ensures { values_of result ≡ values_at rows.now count text.now catalogue.now row field which }
{
    match find(rows, count, text.len(), row, field, which) {
        Some(c) => Ok(shown(c, text, catalogue)),
        None => Err(NoCell),
    }
}

// The text that a cell shows: the part of the plan's text or of the catalogue that `cell_answer` tells. With neither it is empty, as it is where the cell is
// refused: then it is the empty part at the beginning of the plan's text.
pub fn cell_text<'a>(
    rows: &'a [u32],
    count: usize,
    text: &'a [u8],
    catalogue: &'a [u8],
    row: usize,
    field: u32,
    which: usize,
) -> &'a [u8]
    ensures { slice_of result ≡ text_in text.entry catalogue.entry (values_at rows.now count text.now catalogue.now row field which) }
{
    match cell_answer(rows, count, text, catalogue, row, field, which) {
        Ok(s) => match s.source {
            Source::Plan => &text[s.at..s.at + s.len],
            Source::Catalogue => &catalogue[s.at..s.at + s.len],
            Source::Neither => &text[..0],
        },
        Err(NoCell) => &text[..0],
    }
}
