// A plan as numbers: the head by value, the rows as records of 48 numbers in a lent slice. specs/Numbers.antt says which plan they show.
// `rooms` says what the caller lends.
#![tactic(auto)]

pub mod rooms;

ghost use Rattle.std.specs.Prelude.{◌≡◌, ◌+◌, ◌*◌, ◌≤◌, ◌<◌, [], map, length, get_or};
ghost use Rattle.plan.specs.Numbers.{record_at, kind_shown, paper_span, kind_number, head_numbers, record_with, stride};
ghost use Rattle.plan.specs.Records.{paper_kind, code_kind, code_span_in, dose_from, dose_in, text_span, texts_in, row_in, with_record, empty_plan};

use room::lay;

// A value in the text: its start and its length. It is absent exactly when the length is 0.
#[derive(Clone, Copy, PartialEq, Eq)]
pub struct Span {
    pub at: u32,
    pub len: u32,
}

// The four times of day of a dose, each a value of its own.
#[derive(Clone, Copy, PartialEq, Eq)]
pub struct Times {
    pub morning: Span,
    pub midday: Span,
    pub evening: Span,
    pub night: Span,
}

// A row's dose: four times of day of which at least one is present, or one free text, or not stated.
#[derive(Clone, Copy, PartialEq, Eq)]
pub enum Dose {
    Scheme(Times),
    Free(Span),
    Unstated,
}

// What a row is. A number that stands for no kind is Unknown, as an element that has no place in a plan is document 01's `unknown`:
// a record can then always be taken apart, and the rules for a sound row refuse it.
#[derive(Clone, Copy, PartialEq, Eq)]
pub enum Kind {
    Heading,
    Medication,
    Recipe,
    Note,
    Unknown,
}

// A row taken apart: its kind, its package number (0: none), its dose, and its other values in writing order.
#[derive(Clone, Copy, PartialEq, Eq)]
pub struct Row {
    pub kind: Kind,
    pub package: u32,
    pub dose: Dose,
    pub texts: [Span; 14],
}

// A plan by value: the patch, how many rows there are, and the head's values in writing order. Rows and text are lent beside it.
#[derive(Clone, Copy, PartialEq, Eq)]
pub struct Plan {
    pub patch: u32,
    pub rows: u32,
    pub head: [Span; 27],
}

impl Plan {
    // The most rows that a plan has.
    pub const ROWS: usize = 256;
    // How many numbers a row's record has.
    pub const STRIDE: usize = 48;
    // The most bytes that a page has.
    pub const PAGE: usize = paper::PAGE;
    // The numbers for rows that the caller lends.
    pub const NUMBERS: usize = Plan::ROWS * Plan::STRIDE;
    // The bytes of text that the caller lends.
    pub const TEXT: usize = 9 * Plan::PAGE;
    // The bytes for pages that the caller lends: nine full ones.
    pub const PAGES: usize = 9 * Plan::PAGE;
    // The bytes for a listing of pages that the caller lends.
    pub const LISTING: usize = 2 * Plan::TEXT;

    // The plan without rows and without any value.
    pub fn empty() -> Plan
        ensures { result ≡ empty_plan }
    {
        Plan {
            patch: 0,
            rows: 0,
            head: [Span { at: 0, len: 0 }; 27],
        }
    }
}

// The number that a kind has in a record; an unknown kind has 0.
impl From<Kind> for u32 {
    ghost from_gives = { λ kind n. n ≡ kind_number (paper_kind kind) };

    fn from(kind: Kind) -> u32 {
        match kind {
            Kind::Heading => 1,
            Kind::Medication => 2,
            Kind::Recipe => 3,
            Kind::Note => 4,
            Kind::Unknown => 0,
        }
    }
}

// The kind that a number stands for; any number above 4, and 0, is unknown.
impl From<u32> for Kind {
    ghost from_gives = { λ n kind. kind ≡ code_kind (kind_shown n) };

    fn from(n: u32) -> Kind {
        match n {
            1 => Kind::Heading,
            2 => Kind::Medication,
            3 => Kind::Recipe,
            4 => Kind::Note,
            _ => Kind::Unknown,
        }
    }
}

// The kind of row i, counted from 0.
pub fn kind_at(rows: &[u32], i: usize) -> Kind
    requires { (i + 1) * stride ≤ length rows.now }
    ensures { result ≡ code_kind (kind_shown (get_or (record_at rows.now i) 0 0)) }
{
    Kind::from(rows[i * Plan::STRIDE])
}

// The package number of row i; 0 if it has none.
pub fn package_at(rows: &[u32], i: usize) -> u32
    requires { (i + 1) * stride ≤ length rows.now }
    ensures { result ≡ get_or (record_at rows.now i) 1 0 }
{
    rows[i * Plan::STRIDE + 1]
}

// Span j of row i.
#[tactic(auto, using(crate::proofs::Records::record_span))]
pub fn span_at(rows: &[u32], i: usize, j: usize) -> Span
    requires { ((i + 1) * stride ≤ length rows.now) × (j < 19) }
    ensures { result ≡ code_span_in (record_at rows.now i) j }
{
    let k = i * Plan::STRIDE + 2 + 2 * j;
    Span {
        at: rows[k],
        len: rows[k + 1],
    }
}

// The dose that four times of day and a free text make.
pub fn dose_from(x: Times, t: Span) -> Dose
    ensures { result ≡ dose_from x t }
{
    if t.len != 0 {
        return Dose::Free(t);
    }
    if x.morning.len != 0 || x.midday.len != 0 || x.evening.len != 0 || x.night.len != 0 {
        return Dose::Scheme(x);
    }
    Dose::Unstated
}

// The dose of row i.
pub fn dose_at(rows: &[u32], i: usize) -> Dose
    requires { (i + 1) * stride ≤ length rows.now }
    ensures { result ≡ dose_in (record_at rows.now i) }
{
    let times = Times {
        morning: span_at(rows, i, 3),
        midday: span_at(rows, i, 4),
        evening: span_at(rows, i, 5),
        night: span_at(rows, i, 6),
    };
    dose_from(times, span_at(rows, i, 7))
}

// The span in which text j of a row stands: the five of the dose are left out.
fn text_span(j: usize) -> usize
    requires { j < 14 }
    ensures { result ≡ text_span j }
{
    if j < 3 { j } else { j + 5 }
}

// The texts of row i: its values but those of the dose.
pub fn texts_at(rows: &[u32], i: usize) -> [Span; 14]
    requires { (i + 1) * stride ≤ length rows.now }
    ensures { result ≡ texts_in 14 0 (record_at rows.now i) }
{
    let mut texts = [Span { at: 0, len: 0 }; 14];
    for (j, text) in texts.iter_mut().enumerate() {
        *text = span_at(rows, i, text_span(j));
    }
    texts
}

// Row i, taken apart.
#[tactic(auto, unfolding(crate::specs::Records::row_in))]
pub fn row_at(rows: &[u32], i: usize) -> Row
    requires { (i + 1) * stride ≤ length rows.now }
    ensures { result ≡ row_in (record_at rows.now i) }
{
    Row {
        kind: kind_at(rows, i),
        package: package_at(rows, i),
        dose: dose_at(rows, i),
        texts: texts_at(rows, i),
    }
}

// Opens row i: its record has the kind and the package number, and 0 in all other places. All other records stay.
#[tactic(auto, unfolding(crate::specs::Numbers::record_with))]
pub fn open_row(rows: &mut [u32], i: usize, kind: Kind, package: u32)
    requires { (i + 1) * stride ≤ length rows.old }
    ensures { rows.new ≡ with_record rows.old i (record_with (kind_number (paper_kind kind)) «package» []) }
{
    let mut record = [0u32; Plan::STRIDE];
    record[0] = u32::from(kind);
    record[1] = package;
    lay(rows, i * Plan::STRIDE, &record);
}

// The spans of a head as numbers: span j at number 2 + 2 * j, as in a row's record, behind two that are 0.
pub fn head_numbers(head: [Span; 27]) -> [u32; 56]
    ensures { result ≡ head_numbers (map paper_span head) }
{
    let mut numbers = [0u32; 56];
    for (j, s) in head.iter().enumerate() {
        numbers[2 * j + 2] = s.at;
        numbers[2 * j + 3] = s.len;
    }
    numbers
}
