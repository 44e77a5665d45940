// Input: what planlist, planfresh, planfind and plancell print for their input.
ghost use Rattle.std.specs.Prelude.{◌≡◌, true, ◌∷◌, [], ◌+◌, ◌≤◌, length, take};
ghost use Rattle.paper.specs.Calls.{read_at};
ghost use Rattle.paper.specs.Lists.{bytes};
ghost use Rattle.paper.specs.Listing.{line, numeral, print, parted};
ghost use Rattle.paper.specs.Reading.{read};
ghost use Rattle.cell.specs.Answers.{source_number};
ghost use Rattle.room.specs.Laid.{laid};
ghost use Rattle.room.specs.Written.{Wrote};
ghost use Rattle.tollgilt.specs.Fresh.{bytes_told, pages_in};
ghost use Rattle.tollgilt.specs.Printed.{separated, held_lines, found_in, asked, shown_lines, cell_printed, cell_behind, Asks, list_answer, fresh_answer, find_answer, cell_answer, Prints};

use crate::cells::{CellShown, cell_pages};
use crate::find::find_pages;
use crate::fresh::fresh_pages;
use crate::list::list_pages;
use cell::Cell;
use fields::numbers::shown;
use fields::sets::{DIGIT, all_in};
use listing::lines::{count_line, text_line};
use listing::pages::{next_page, split_pages};
use listing::refusals::list_refusal;
use plan::Plan;
use plan::rooms::listing_fits;
use room::lay;
use writer::writing::Pages;

// The most bytes of an input that count.
pub const INPUT: usize = 12609;

// The room for nine full pages and the zero bytes between them.
pub const SEPARATED: usize = Plan::PAGES + 8;

// The most bytes of an input that count where it begins with a package number: eight digits and a zero byte more.
pub const ASKING: usize = 9 + INPUT;

// The room for the line `held=256`, and for 256 lines like `row=256`.
pub const FOUND: usize = 9 + 8 * Plan::ROWS;

// The longest text of a catalogue in an input.
pub const CATALOGUE: usize = 1000;

// The most bytes of an input that count where it begins with three numbers and a catalogue's text: eight digits for each number, and a zero byte behind each of the
// four.
pub const CELL_ASKING: usize = 28 + CATALOGUE + INPUT;

// The room for the lines `source=2`, `cut=1`, `left=1000` and `zero=1`, and for the longest text in its line.
pub const CELL_LINES: usize = 38 + Cell::SUBSTANCE;

// The pages of an input, as they are handed in: how many there are, where they begin, and how long they are. Of more than ten, the first ten.
#[derive(Clone, Copy)]
pub struct Parts {
    pub pages: usize,
    pub starts: [usize; 10],
    pub lens: [usize; 10],
}

// How many bytes of the input count: the first 12,609, or all.
fn counted(input: &[u8]) -> usize
    ensures { (result ≤ length input.now) × (take result input.now ≡ take 12609 input.now) }
{
    input.len().min(INPUT)
}

// The pages of what counts of an input. Handed in, they are read as document 01 says of the input.
fn split(input: &[u8]) -> Parts
    ensures { (result.pages ≤ length result.starts) × (result.pages ≤ length result.lens)
        × (read_at true input.now (take result.pages result.starts) (take result.pages result.lens) ≡ read (parted (take 12609 input.now))) }
{
    let mut starts = [0usize; 10];
    let mut lens = [0usize; 10];
    let n = counted(input);
    let k = split_pages(&input[..n], &mut starts, &mut lens);
    Parts {
        pages: k,
        starts,
        lens,
    }
}

// What planlist prints for its input: the listing of the pages that the input holds, or the three lines of their refusal. It is laid at the beginning of `out`.
// Pages are separated by one zero byte, and only the first 12,609 bytes count. A room of less than 25,200 bytes is refusal 1, and stays as it was.
pub fn list_input(input: &[u8], out: &mut [u8]) -> Option<usize>
    ensures { Prints (list_answer out.old input.now) out.old result out.new }
{
    if !listing_fits(out.len()) {
        return None;
    }
    let parts = split(input);
    let k = parts.pages;
    match list_pages(input, &parts.starts[..k], &parts.lens[..k], out) {
        Ok(length) => Some(length as usize),
        Err(e) => Some(list_refusal(e.number, e.page, e.place, out)),
    }
}

// Lays the pages that were written into a room into `out`, separated by one zero byte, and returns how many bytes that is. All other bytes of `out` stay.
fn join_pages(fresh: Pages, room: &[u8], out: &mut [u8]) -> usize
    requires { (1 ≤ fresh.count) × (fresh.count ≤ 9) × (bytes_told fresh ≤ length room.now)
        × (bytes_told fresh + fresh.count ≤ length out.old + 1) }
    ensures { (result ≡ length (separated (pages_in fresh room.now)))
        × (out.new ≡ laid out.old 0 (separated (pages_in fresh room.now))) }
{
    let count = fresh.count as usize;
    let lens = fresh.lens;
    let mut at = lens[0] as usize;
    let mut n = lay(out, 0, &room[..at]);
    for k in 1..count {
        let end = at + lens[k] as usize;
        out[n] = 0;
        n = lay(out, n + 1, &room[at..end]);
        at = end;
    }
    n
}

// What planfresh prints for its input: the fresh pages of the pages that the input holds, separated by one zero byte, or the three lines of the refusal. It is
// laid at the beginning of `out`. The input is parted as planlist's. A room of less than 12,608 bytes is refusal 1, and stays as it was.
pub fn fresh_input(input: &[u8], out: &mut [u8]) -> Option<usize>
    ensures { Prints (fresh_answer out.old input.now) out.old result out.new }
{
    if out.len() < SEPARATED {
        return None;
    }
    let parts = split(input);
    let k = parts.pages;
    let mut room = [0u8; Plan::PAGES];
    match fresh_pages(input, &parts.starts[..k], &parts.lens[..k], &mut room) {
        Ok(fresh) => Some(join_pages(fresh, &room, out)),
        Err(e) => Some(list_refusal(e.number, e.page, e.place, out)),
    }
}

// What an input asks for: a number, and where in the input that begins which stands behind it.
#[derive(Clone, Copy, PartialEq, Eq)]
pub struct Question {
    pub number: u32,
    pub pages: usize,
}

// The number that an input asks for: one to eight digits before its first zero byte. None where there is no zero byte, or not one to eight digits before the first.
fn asked_for(input: &[u8]) -> Option<Question>
    ensures { Asks input.now result }
{
    let end = next_page(input, 0);
    if end >= input.len() || end < 1 || end > 8 || !all_in(&input[..end], 0, DIGIT) {
        return None;
    }
    Some(Question {
        number: shown(input, 0, end),
        pages: end + 1,
    })
}

// Writes the line of a row that holds the number, and returns the place behind it.
fn row_line(out: &mut [u8], at: usize, row: u32) -> usize
    requires { at + length (print (line (bytes "row") (numeral row) ∷ [])) ≤ length out.old }
    ensures { Wrote out.old out.new at result (print (line (bytes "row") (numeral row) ∷ [])) }
{
    count_line(out, at, b"row", row)
}

// Prints how many rows hold a number, and the line of each, into `out`: the first `count` of the list. Returns how many bytes that is. All other bytes stay.
fn held_lines(list: &[u32], count: u32, out: &mut [u8]) -> usize
    requires { (count ≤ length list.now) × (length (held_lines (take count list.now)) ≤ length out.old) }
    ensures { (result ≡ length (held_lines (take count list.now))) × (out.new ≡ laid out.old 0 (held_lines (take count list.now))) }
{
    let mut a = count_line(out, 0, b"held", count);
    for row in &list[..count as usize] {
        a = row_line(out, a, *row);
    }
    a
}

// Prints the rows that hold a number into `out`, for pages that are parted as planlist's, or the three lines of their refusal. Returns how many bytes that is.
// All other bytes stay.
fn found_in(number: u32, input: &[u8], out: &mut [u8]) -> usize
    requires { 2057 ≤ length out.old }
    ensures { (result ≡ length (found_in number input.now)) × (out.new ≡ laid out.old 0 (found_in number input.now)) }
{
    let parts = split(input);
    let k = parts.pages;
    let mut list = [0u32; Plan::ROWS];
    match find_pages(
        input,
        &parts.starts[..k],
        &parts.lens[..k],
        number,
        &mut list,
    ) {
        Ok(count) => held_lines(&list, count, out),
        Err(e) => list_refusal(e.number, e.page, e.place, out),
    }
}

// What planfind prints for its input: how many rows hold the package number that the input asks for, and which, or the three lines of a refusal. It is laid at the
// beginning of `out`. The input is the number, a zero byte, and pages as planlist takes them; one that asks for no number is refusal 1. A room of less than 2,057
// bytes is refusal 1, and stays as it was.
pub fn find_input(input: &[u8], out: &mut [u8]) -> Option<usize>
    ensures { Prints (find_answer out.old input.now) out.old result out.new }
{
    if out.len() < FOUND {
        return None;
    }
    match asked_for(input) {
        None => Some(list_refusal(1, 0, 0, out)),
        Some(q) => Some(found_in(q.number, &input[q.pages..], out)),
    }
}

// Prints what a cell shows into `out`: its four numbers, and its text, which a room begins with. Returns how many bytes that is. All other bytes stay.
fn cell_lines(shown: CellShown, room: &[u8], out: &mut [u8]) -> usize
    requires { (shown.length ≤ length room.now) × (shown.omitted ≤ 1000)
        × (length (shown_lines (source_number shown.source) shown.more shown.omitted shown.zero (take shown.length room.now)) ≤ length out.old) }
    ensures { (result ≡ length (shown_lines (source_number shown.source) shown.more shown.omitted shown.zero (take shown.length room.now)))
        × (out.new ≡ laid out.old 0 (shown_lines (source_number shown.source) shown.more shown.omitted shown.zero (take shown.length room.now))) }
{
    let a = count_line(out, 0, b"source", shown.source.number());
    let b = count_line(out, a, b"cut", shown.more as u32);
    let c = count_line(out, b, b"left", shown.omitted as u32);
    let d = count_line(out, c, b"zero", shown.zero as u32);
    text_line(out, d, b"text", &room[..shown.length])
}

// Prints a cell into `out`, for pages that are parted as planlist's, or the three lines of a refusal. Returns how many bytes that is. All other bytes stay.
fn printed_cell<'a>(
    row: u32,
    field: u32,
    which: u32,
    catalogue: &'a [u8],
    input: &'a [u8],
    out: &mut [u8],
) -> usize
    requires { (length catalogue.now ≤ 1000) × (118 ≤ length out.old) }
    ensures { (result ≡ length (cell_printed row field which catalogue.now input.now))
        × (out.new ≡ laid out.old 0 (cell_printed row field which catalogue.now input.now)) }
{
    let parts = split(input);
    let k = parts.pages;
    let mut room = [0u8; Cell::SUBSTANCE];
    let shown = cell_pages(
        input,
        &parts.starts[..k],
        &parts.lens[..k],
        catalogue,
        row as usize,
        field,
        which as usize,
        &mut room,
    );
    match shown {
        Ok(c) => cell_lines(c, &room, out),
        Err(e) => list_refusal(e.number, e.page, e.place, out),
    }
}

// Prints a cell into `out`, where the catalogue's text, a zero byte and pages are left of the input. Returns how many bytes that is. All other bytes stay.
fn cell_behind(row: u32, field: u32, which: u32, input: &[u8], out: &mut [u8]) -> usize
    requires { 118 ≤ length out.old }
    ensures { (result ≡ length (cell_behind row field which input.now)) × (out.new ≡ laid out.old 0 (cell_behind row field which input.now)) }
{
    let end = next_page(input, 0);
    if end >= input.len() || end > CATALOGUE {
        return list_refusal(1, 0, 0, out);
    }
    printed_cell(row, field, which, &input[..end], &input[end + 1..], out)
}

// The same where the input still asks for which of three.
fn third_asked(row: u32, field: u32, input: &[u8], out: &mut [u8]) -> usize
    requires { 118 ≤ length out.old }
    ensures { (result ≡ length (asked (cell_behind row field) input.now)) × (out.new ≡ laid out.old 0 (asked (cell_behind row field) input.now)) }
{
    match asked_for(input) {
        None => list_refusal(1, 0, 0, out),
        Some(q) => cell_behind(row, field, q.number, &input[q.pages..], out),
    }
}

// The same where it still asks for the field.
fn field_asked(row: u32, input: &[u8], out: &mut [u8]) -> usize
    requires { 118 ≤ length out.old }
    ensures { (result ≡ length (asked (λ n. asked (cell_behind row n)) input.now)) × (out.new ≡ laid out.old 0 (asked (λ n. asked (cell_behind row n)) input.now)) }
{
    match asked_for(input) {
        None => list_refusal(1, 0, 0, out),
        Some(q) => third_asked(row, q.number, &input[q.pages..], out),
    }
}

// What plancell prints for its input: what the cell shows that the input asks for, or the three lines of a refusal. It is laid at the beginning of `out`. The input
// is the row's number, the field's, and which of three, each with a zero byte behind it, the catalogue's text for the cell, at most 1,000 bytes, a zero byte, and
// pages as planlist takes them; one that does not ask so is refusal 1. A room of less than 118 bytes is refusal 1, and stays as it was.
pub fn cell_input(input: &[u8], out: &mut [u8]) -> Option<usize>
    ensures { Prints (cell_answer out.old input.now) out.old result out.new }
{
    if out.len() < CELL_LINES {
        return None;
    }
    match asked_for(input) {
        None => Some(list_refusal(1, 0, 0, out)),
        Some(q) => Some(field_asked(q.number, &input[q.pages..], out)),
    }
}
