// Exported functions for the tests alone: they hand the inner layers out to the host, which compares them with the second program.
// They are no part of the product's border, which is the crate `tollgilt`.
#![tactic(auto)]

pub mod cells;
pub mod collecting;
pub mod indexing;
pub mod printing;
pub mod writing;

ghost use Rattle.std.specs.Prelude.{◌≡◌};
ghost use Rattle.paper.specs.Bytes.{class_of, class_number, first_refused};

use fields::dose::is_zero;
use fields::lookup::{child, count_of, field, first_of, rule_of};
use fields::places::FIELDS;
use fields::rules::keeps_field;
use markup::scan::scan;
use markup::values::{decode, spell};
use markup::walk::{Mark, Piece, next_attr, next_tag};
use plan::{Plan, Span};
use reader::reading::{Reading, read};
use sheet::judge::judge_page;

// The class of a byte as a number.
#[unsafe(no_mangle)]
pub extern "C" fn probe_class(b: u8) -> u8
    ensures { result ≡ class_number (class_of b) }
{
    marks::class_of(b)
}

// How many bytes stand before the first one that is not allowed.
#[unsafe(no_mangle)]
pub extern "C" fn probe_first_refused(s: &[u8]) -> usize
    ensures { result ≡ first_refused s.now }
{
    marks::first_refused(s)
}

// How many bytes of a page of at most 1,400 are a good beginning; 2,000 for a whole page, and 3,000 for one that is too long.
#[unsafe(no_mangle)]
pub extern "C" fn probe_scan(page: &[u8]) -> usize {
    if page.len() > Plan::PAGE {
        return 3000;
    }
    match scan(page) {
        Ok(()) => 2000,
        Err(n) => n,
    }
}

// The value of the bytes between two quotes, laid at the beginning of `out`: its length, or a million if the room is too small.
#[unsafe(no_mangle)]
pub extern "C" fn probe_value(raw: &[u8], out: &mut [u8]) -> u64 {
    if out.len() < raw.len() {
        return 1000000;
    }
    decode(raw, 0, raw.len(), out, 0) as u64
}

// The fresh spelling of a value, laid at the beginning of `out`: its length, or a million if the room has less than six times the bytes of the value.
#[unsafe(no_mangle)]
pub extern "C" fn probe_spell(value: &[u8], out: &mut [u8]) -> u64 {
    if out.len() / 6 < value.len() {
        return 1000000;
    }
    spell(value, 0, value.len(), out, 0) as u64
}

// The kind of the next tag from `at` on (0 none left, 1 start, 2 end), with its place and the end of its name.
#[unsafe(no_mangle)]
pub extern "C" fn probe_next_tag(page: &[u8], at: usize, told: &mut [usize; 2]) -> u8 {
    if at > page.len() {
        return 0;
    }
    match next_tag(page, at) {
        Some(Mark::Start { at: i, name_end }) => {
            told[0] = i;
            told[1] = name_end;
            1
        }
        Some(Mark::End { at: i }) => {
            told[0] = i;
            2
        }
        None => 0,
    }
}

// The next piece of a start tag from `at` on (0 its end, 1 its end where it closes itself, 2 an attribute), with the ends of its name and raw value.
#[unsafe(no_mangle)]
pub extern "C" fn probe_next_attr(page: &[u8], at: usize, told: &mut [usize; 4]) -> u8 {
    if at > page.len() {
        return 0;
    }
    match next_attr(page, at) {
        Piece::Stop { shut } => shut as u8,
        Piece::Attribute {
            name_at,
            name_end,
            raw_at,
            raw_end,
        } => {
            told[0] = name_at;
            told[1] = name_end;
            told[2] = raw_at;
            told[3] = raw_end;
            2
        }
    }
}

// The number of the element of that name under a parent (10 for none): 0 if it is unknown there.
#[unsafe(no_mangle)]
pub extern "C" fn probe_child(parent: u8, name: &[u8]) -> u8 {
    if parent > 10 {
        return 0;
    }
    child(parent, name)
}

// The place in the table of the field of that name in an element, or one past the table if it is unknown there.
#[unsafe(no_mangle)]
pub extern "C" fn probe_field(element: u8, name: &[u8]) -> usize {
    if element > 9 {
        return FIELDS;
    }
    let j = field(element, name);
    if j < count_of(element) {
        return first_of(element) + j;
    }
    FIELDS
}

// Whether a value keeps the field at a place of the table: 0 no, 1 yes, 2 it is a dose of exactly 0, which reads as absent.
#[unsafe(no_mangle)]
pub extern "C" fn probe_keeps(id: usize, value: &[u8]) -> u8 {
    if id >= FIELDS {
        return 0;
    }
    if is_zero(rule_of(id), value) {
        return 2;
    }
    if keeps_field(id, value) {
        return 1;
    }
    0
}

// The refusal number of a page, 2 to 8, with its place in `told`; 0 if the page has no fault.
#[unsafe(no_mangle)]
pub extern "C" fn probe_judge(page: &[u8], told: &mut [usize; 1]) -> u8 {
    let mut scratch = [0u8; Plan::PAGE];
    match judge_page(page, &mut scratch) {
        Err(refusal) => {
            told[0] = refusal.place as usize;
            refusal.cause.number()
        }
        Ok(()) => 0,
    }
}

// The start and the length of each of the head's 27 spans, from place 4 on.
fn tell_spans(head: [Span; 27], told: &mut [u32; 58]) {
    for (j, s) in head.iter().enumerate() {
        told[4 + 2 * j] = s.at;
        told[5 + 2 * j] = s.len;
    }
}

// What reading gave: the number of the refusal, 0 for a plan; in `told` its page and place, the plan's patch and its number of rows, and the head's spans.
pub fn tell_reading(r: Reading, told: &mut [u32; 58]) -> u32 {
    let plan = r.unwrap_or(Plan::empty());
    told[2] = plan.patch;
    told[3] = plan.rows;
    tell_spans(plan.head, told);
    match r {
        Ok(_) => {
            told[0] = 0;
            told[1] = 0;
            0
        }
        Err(refusal) => {
            told[0] = refusal.page();
            told[1] = refusal.place();
            refusal.number()
        }
    }
}

// Reads a call: the number of the refusal, 0 for a plan; in `told` its page and place, the plan's patch and its number of rows, and the head's spans.
#[unsafe(no_mangle)]
pub extern "C" fn probe_read<'a>(
    buffer: &'a [u8],
    starts: &'a [usize],
    lens: &'a [usize],
    rows: &mut [u32],
    text: &mut [u8],
    told: &mut [u32; 58],
) -> u32 {
    tell_reading(read(buffer, starts, lens, rows, text), told)
}
