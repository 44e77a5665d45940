// The command r: pages, one zero byte between them, of which at most 12,609 bytes count, read as one call into rooms that hold a pattern. It prints
//   answer NUMBER PAGE PLACE
//   plan PATCH ROWS
//   head, and the start and the length of each of its 27 spans
//   row, and its 48 numbers, for each row
//   text, and its bytes, up to the end of the last span
//   rest kept, or rest changed: whether the rooms behind rows and text still hold the pattern
ghost use Rattle.std.specs.Prelude.{◌+◌, ◌*◌, ◌≤◌, length};
ghost use Rattle.plan.specs.Numbers.{stride};

use crate::lines::{bytes, end, number, numbers, word};
use listing::pages::split_pages;
use plan::{Plan, Span, span_at};
use reader::answer::Refusal;
use reader::reading::read;
use std::io::{self, Write};

// What stands in the rows' room, and in the text's, before the call.
const ROW_PATTERN: u32 = 2779096485;

const TEXT_PATTERN: u8 = 90;

// The first line: the number, page and place of a refusal, and 0 for each where there is none.
pub fn tell_answer<W: Write>(out: &mut W, refusal: Option<Refusal>) -> io::Result<()> {
    word(out, b"answer")?;
    number(out, refusal.map_or(0, |r| r.number()))?;
    number(out, refusal.map_or(0, |r| r.page()))?;
    number(out, refusal.map_or(0, |r| r.place()))?;
    end(out)
}

// The later of two ends in the text: one, and that of a span.
fn later(last: usize, s: Span) -> usize {
    last.max(s.at as usize + s.len as usize)
}

// The head's spans on a line. Answers where the last of them ends in the text.
fn tell_head<W: Write>(out: &mut W, head: [Span; 27]) -> io::Result<usize> {
    let mut last = 0;
    word(out, b"head")?;
    for s in head {
        number(out, s.at)?;
        number(out, s.len)?;
        last = later(last, s);
    }
    end(out)?;
    Ok(last)
}

// One row on a line.
fn tell_row<W: Write>(out: &mut W, rows: &[u32], i: usize) -> io::Result<()>
    requires { (i + 1) * stride ≤ length rows.now }
{
    word(out, b"row")?;
    numbers(out, rows, i * Plan::STRIDE, i * Plan::STRIDE + Plan::STRIDE)?;
    end(out)
}

// The later of two ends in the text: one, and that of the row's last span.
fn row_end(rows: &[u32], i: usize, before: usize) -> usize
    requires { (i + 1) * stride ≤ length rows.now }
{
    let mut last = before;
    for j in 0..19 {
        last = later(last, span_at(rows, i, j));
    }
    last
}

// The rows, a line each. Answers where the last span of head and rows ends in the text.
fn tell_rows<W: Write>(out: &mut W, rows: &[u32], count: usize, before: usize) -> io::Result<usize>
    requires { count * stride ≤ length rows.now }
{
    let mut last = before;
    for i in 0..count {
        tell_row(out, rows, i)?;
        last = row_end(rows, i, last);
    }
    Ok(last)
}

// Whether the rows' room holds its pattern from a place on.
fn rows_kept(rows: &[u32], from: usize) -> bool {
    rows.iter().skip(from).all(|n| *n == ROW_PATTERN)
}

// Whether the text's room holds its pattern from a place on.
fn text_kept(text: &[u8], from: usize) -> bool {
    text.iter().skip(from).all(|b| *b == TEXT_PATTERN)
}

// The rooms after a call: the plan's rows and text, and whether the rest is kept.
fn tell_rooms<W: Write>(
    out: &mut W,
    rows: &[u32; Plan::NUMBERS],
    text: &[u8; Plan::TEXT],
    count: usize,
    head_end: usize,
) -> io::Result<()> {
    let n = count.min(Plan::ROWS);
    let last = tell_rows(out, rows, n, head_end)?.min(Plan::TEXT);
    word(out, b"text")?;
    bytes(out, text, last)?;
    end(out)?;
    if rows_kept(rows, n * Plan::STRIDE) && text_kept(text, last) {
        word(out, b"rest kept\n")
    } else {
        word(out, b"rest changed\n")
    }
}

// Reads the pages of a call and prints all that it gives.
fn call<'a, W: Write>(
    out: &mut W,
    input: &'a [u8],
    starts: &'a [usize],
    lens: &'a [usize],
) -> io::Result<()> {
    let mut rows = [ROW_PATTERN; Plan::NUMBERS];
    let mut text = [TEXT_PATTERN; Plan::TEXT];
    let r = read(input, starts, lens, &mut rows, &mut text);
    tell_answer(out, r.err())?;
    let plan = r.unwrap_or(Plan::empty());
    word(out, b"plan")?;
    number(out, plan.patch)?;
    number(out, plan.rows)?;
    end(out)?;
    let head_end = tell_head(out, plan.head)?;
    tell_rooms(out, &rows, &text, plan.rows as usize, head_end)
}

// The call whose pages stand in the first places of two slices.
fn call_first<'a, W: Write>(
    out: &mut W,
    input: &'a [u8],
    starts: &'a [usize],
    lens: &'a [usize],
    count: usize,
) -> io::Result<()>
    requires { (count ≤ length starts.now) × (count ≤ length lens.now) }
{
    call(out, input, &starts[0..count], &lens[0..count])
}

// The same, of two arrays.
fn call_ten<'a, W: Write>(
    out: &mut W,
    input: &'a [u8],
    starts: &'a [usize; 10],
    lens: &'a [usize; 10],
    count: usize,
) -> io::Result<()> {
    call_first(out, input, starts, lens, count.min(10))
}

// The command.
pub fn answer<W: Write>(out: &mut W, given: &[u8]) -> io::Result<()> {
    let n = given.len().min(12609);
    let input = &given[0..n];
    let mut starts = [0usize; 10];
    let mut lens = [0usize; 10];
    let count = split_pages(input, &mut starts, &mut lens);
    call_ten(out, input, &starts, &lens, count)
}
