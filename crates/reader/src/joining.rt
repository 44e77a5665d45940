// The pages of a call joined, as their tapes tell them: heads compared, rows counted and laid out by page number.
ghost use Rattle.std.specs.Prelude.{◌≡◌, true, [], ◌≤◌, ◌<◌, ◌+◌, ◌*◌, length, take, get_or};
ghost use Rattle.paper.specs.Reading.{joined, rows_at};
ghost use Rattle.paper.specs.Calls.{row_room, text_room, inside, pages_at};
ghost use Rattle.paper.specs.Layout.{text_of, rows_values};
ghost use Rattle.plan.specs.Numbers.{plan_numbers, plan_rows, stride};
ghost use Rattle.room.specs.Laid.{laid};
ghost use Rattle.page.specs.Laying.{Room, Fills};
ghost use Rattle.reader.specs.Pages.{nos_of, Says};
ghost use Rattle.reader.specs.Joining.{said, sheet_at, like_first, first_other, count_said, plan_in, no_plan};
ghost use Rattle.page.specs.Walking.{HeadAt};
ghost use Rattle.reader.specs.Tapes.{Taken};

use crate::pages::page_of;
use page::content::{
    Filled, Places, alike, count_rows, count_said, fill_rows, find_head, lay_head, number_of,
};
use plan::Plan;

// The first page whose head or count is another than the first page's, if there is one, the count, and the number of each page.
#[derive(Clone, Copy)]
pub struct Compared {
    pub other: Option<usize>,
    pub count: u8,
    pub nos: [u8; 9],
}

// Page i of the call, counted from 0.
pub fn page_at<'a>(buffer: &'a [u8], starts: &'a [usize], lens: &'a [usize], i: usize) -> &'a [u8]
    requires { (i < length starts.now) × (inside buffer.now starts.now lens.now ≡ true) }
    ensures { result.now ≡ get_or (pages_at buffer.now starts.now lens.now) i [] }
{
    &buffer[starts[i]..][..lens[i]]
}

// The number of page i.
fn number_at<'a>(
    buffer: &'a [u8],
    starts: &'a [usize],
    lens: &'a [usize],
    side: &'a [u8],
    tape: &'a [u16],
    firsts: &'a [usize; 10],
    i: usize,
) -> u8
    requires { (i < length starts.now) × Taken buffer.now starts.now lens.now side.now tape.now firsts.now }
    ensures { result ≡ (sheet_at (pages_at buffer.now starts.now lens.now) i).no }
{
    let page = page_at(buffer, starts, lens, i);
    let h = find_head(page, side, tape, firsts[i], firsts[i + 1]);
    let no = number_of(page, side, tape, h.mp);
    no as u8
}

// Whether the count and the head of page i are the first page's, whose head lies at `h`.
fn like_first<'a>(
    buffer: &'a [u8],
    starts: &'a [usize],
    lens: &'a [usize],
    side: &'a [u8],
    tape: &'a [u16],
    firsts: &'a [usize; 10],
    h: Places,
    i: usize,
) -> bool
    requires { (i < length starts.now) × Taken buffer.now starts.now lens.now side.now tape.now firsts.now
        × HeadAt (get_or (pages_at buffer.now starts.now lens.now) 0 []) side.now tape.now h }
    ensures { result ≡ like_first (pages_at buffer.now starts.now lens.now) i }
{
    let one = page_at(buffer, starts, lens, 0);
    let two = page_at(buffer, starts, lens, i);
    let k = find_head(two, side, tape, firsts[i], firsts[i + 1]);
    alike(one, two, side, tape, h, k)
}

// The first page, counted from 1, whose count or head is another than the first page's, whose head lies at `h`, if there is one.
fn first_other<'a>(
    buffer: &'a [u8],
    starts: &'a [usize],
    lens: &'a [usize],
    side: &'a [u8],
    tape: &'a [u16],
    firsts: &'a [usize; 10],
    h: Places,
) -> Option<usize>
    requires { (1 ≤ length starts.now) × (length starts.now ≤ 9) × Taken buffer.now starts.now lens.now side.now tape.now firsts.now
        × HeadAt (get_or (pages_at buffer.now starts.now lens.now) 0 []) side.now tape.now h }
    ensures { Says result (first_other (said buffer.now starts.now lens.now)) }
{
    for i in 1..starts.len() {
        if !like_first(buffer, starts, lens, side, tape, firsts, h, i) {
            return Some(i + 1);
        }
    }
    None
}

// The numbers of the pages, in the order handed in; 0 behind the last.
fn numbers<'a>(
    buffer: &'a [u8],
    starts: &'a [usize],
    lens: &'a [usize],
    side: &'a [u8],
    tape: &'a [u16],
    firsts: &'a [usize; 10],
) -> [u8; 9]
    requires { (length starts.now ≤ 9) × Taken buffer.now starts.now lens.now side.now tape.now firsts.now }
    ensures { take (length starts.now) result ≡ nos_of (said buffer.now starts.now lens.now) }
{
    let mut nos = [0u8; 9];
    for i in 0..starts.len() {
        nos[i] = number_at(buffer, starts, lens, side, tape, firsts, i);
    }
    nos
}

// Compares the heads and counts of the pages with the first page's, which are taken once, and tells the pages' numbers.
pub fn heads<'a>(
    buffer: &'a [u8],
    starts: &'a [usize],
    lens: &'a [usize],
    side: &'a [u8],
    tape: &'a [u16],
    firsts: &'a [usize; 10],
) -> Compared
    requires { (1 ≤ length starts.now) × (length starts.now ≤ 9) × Taken buffer.now starts.now lens.now side.now tape.now firsts.now }
    ensures { Says result.other (first_other (said buffer.now starts.now lens.now))
        × (result.count ≡ count_said (said buffer.now starts.now lens.now))
        × (take (length starts.now) result.nos ≡ nos_of (said buffer.now starts.now lens.now)) }
{
    let first = page_at(buffer, starts, lens, 0);
    let h = find_head(first, side, tape, firsts[0], firsts[1]);
    let of = count_said(first, side, tape, h.mp);
    let other = first_other(buffer, starts, lens, side, tape, firsts, h);
    let nos = numbers(buffer, starts, lens, side, tape, firsts);
    Compared {
        other,
        count: of as u8,
        nos,
    }
}

// How many rows the page of number k has; none if there is no such page.
fn rows_of<'a>(
    buffer: &'a [u8],
    starts: &'a [usize],
    lens: &'a [usize],
    side: &'a [u8],
    tape: &'a [u16],
    firsts: &'a [usize; 10],
    nos: [u8; 9],
    k: u8,
) -> usize
    requires { (length starts.now ≤ 9) × Taken buffer.now starts.now lens.now side.now tape.now firsts.now
        × (nos_of (said buffer.now starts.now lens.now) ≡ take (length starts.now) nos) }
    ensures { (result ≡ length (rows_at k (said buffer.now starts.now lens.now))) × (result < 65536) }
{
    let Some(i) = page_of(nos, starts.len(), k) else {
        return 0;
    };
    let page = page_at(buffer, starts, lens, i);
    count_rows(page, side, tape, firsts[i], firsts[i + 1])
}

// How many rows the pages numbered 1 to z have together.
pub fn total_rows<'a>(
    buffer: &'a [u8],
    starts: &'a [usize],
    lens: &'a [usize],
    side: &'a [u8],
    tape: &'a [u16],
    firsts: &'a [usize; 10],
    nos: [u8; 9],
    z: u8,
) -> usize
    requires { (length starts.now ≤ 9) × Taken buffer.now starts.now lens.now side.now tape.now firsts.now
        × (nos_of (said buffer.now starts.now lens.now) ≡ take (length starts.now) nos) × (z ≤ 9) }
    ensures { result ≡ length (joined (said buffer.now starts.now lens.now) 1 z) }
{
    let mut total = 0;
    for k in 0..z {
        total += rows_of(buffer, starts, lens, side, tape, firsts, nos, k + 1);
    }
    total
}

// Lays the rows of the page of number k out, from `n` of the text and from row i on; nothing if there is no such page.
fn fill_number<'a>(
    buffer: &'a [u8],
    starts: &'a [usize],
    lens: &'a [usize],
    side: &'a [u8],
    tape: &'a [u16],
    firsts: &'a [usize; 10],
    nos: [u8; 9],
    k: u8,
    rows: &mut [u32],
    text: &mut [u8],
    n: usize,
    i: usize,
) -> Filled
    requires { (length starts.now ≤ 9) × Taken buffer.now starts.now lens.now side.now tape.now firsts.now
        × (nos_of (said buffer.now starts.now lens.now) ≡ take (length starts.now) nos)
        × Room (rows_values (rows_at k (said buffer.now starts.now lens.now))) text.old n
        × ((i + length (rows_at k (said buffer.now starts.now lens.now))) * stride ≤ length rows.old) }
    ensures { Fills (rows_at k (said buffer.now starts.now lens.now)) text.old text.new n result.end
        rows.old rows.new i result.row }
{
    let Some(p) = page_of(nos, starts.len(), k) else {
        return Filled { end: n, row: i };
    };
    let page = page_at(buffer, starts, lens, p);
    fill_rows(page, side, tape, firsts[p], firsts[p + 1], rows, text, n, i)
}

// Lays the rows of the pages numbered 1 to z out, from `n` of the text and from the first row on.
fn fill_pages<'a>(
    buffer: &'a [u8],
    starts: &'a [usize],
    lens: &'a [usize],
    side: &'a [u8],
    tape: &'a [u16],
    firsts: &'a [usize; 10],
    nos: [u8; 9],
    z: u8,
    rows: &mut [u32],
    text: &mut [u8],
    n: usize,
) -> Filled
    requires { (length starts.now ≤ 9) × Taken buffer.now starts.now lens.now side.now tape.now firsts.now
        × (nos_of (said buffer.now starts.now lens.now) ≡ take (length starts.now) nos) × (z ≤ 9)
        × Room (rows_values (joined (said buffer.now starts.now lens.now) 1 z)) text.old n
        × (length (joined (said buffer.now starts.now lens.now) 1 z) * stride ≤ length rows.old) }
    ensures { Fills (joined (said buffer.now starts.now lens.now) 1 z) text.old text.new n result.end
        rows.old rows.new 0 result.row }
{
    let mut m = n;
    let mut i = 0;
    for k in 0..z {
        let filled = fill_number(
            buffer,
            starts,
            lens,
            side,
            tape,
            firsts,
            nos,
            k + 1,
            rows,
            text,
            m,
            i,
        );
        m = filled.end;
        i = filled.row;
    }
    Filled { end: m, row: i }
}

// Lays the plan of the pages out: the head, then the rows of the pages by their numbers 1 to z.
pub fn fill_all<'a>(
    buffer: &'a [u8],
    starts: &'a [usize],
    lens: &'a [usize],
    side: &'a [u8],
    tape: &'a [u16],
    firsts: &'a [usize; 10],
    nos: [u8; 9],
    z: u8,
    rows: &mut [u32],
    text: &mut [u8],
) -> Plan
    requires { (1 ≤ length starts.now) × (length starts.now ≤ 9) × Taken buffer.now starts.now lens.now side.now tape.now firsts.now
        × (nos_of (said buffer.now starts.now lens.now) ≡ take (length starts.now) nos)
        × (z ≡ count_said (said buffer.now starts.now lens.now)) × (z ≤ 9)
        × (length (plan_in (said buffer.now starts.now lens.now) no_plan).rows ≤ row_room) × (row_room * stride ≤ length rows.old)
        × (length (text_of (plan_in (said buffer.now starts.now lens.now) no_plan)) ≤ text_room) × (text_room ≤ length text.old) }
    ensures { (result ≡ plan_numbers (plan_in (said buffer.now starts.now lens.now) no_plan))
        × (text.new ≡ laid text.old 0 (text_of (plan_in (said buffer.now starts.now lens.now) no_plan)))
        × (rows.new ≡ laid rows.old 0 (plan_rows (plan_in (said buffer.now starts.now lens.now) no_plan))) }
{
    let first = page_at(buffer, starts, lens, 0);
    let places = find_head(first, side, tape, firsts[0], firsts[1]);
    let head = lay_head(first, side, tape, places, text, 0);
    let filled = fill_pages(
        buffer, starts, lens, side, tape, firsts, nos, z, rows, text, head.end,
    );
    let spans = head.spans; // Tried straight in the literal: no proof is made of that.
    Plan {
        patch: head.patch,
        rows: filled.row as u32,
        head: spans,
    }
}
