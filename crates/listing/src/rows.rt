// Rows: the lines of a row from its record of 48 numbers, of all rows, and of the whole plan.
ghost use Rattle.std.specs.Prelude.{◌≡◌, true, ◌+◌, ◌*◌, ◌≤◌, ◌<◌, length};
ghost use Rattle.paper.specs.Listing.{print, row_lines, rows_lines, listing};
ghost use Rattle.plan.specs.Numbers.{record_at, show_row, show_rows, show_plan, in_text, head_in_text, fit_rows, stride};
ghost use Rattle.room.specs.Laid.{laid};
ghost use Rattle.room.specs.Written.{Wrote};
ghost use Rattle.fields.specs.Places.{field_count};
ghost use Rattle.listing.specs.Numbered.{plain_row, medication_row, substance_lines};

use crate::elements::{fields, head_lines};
use crate::lines::{count_line, number_line, text_line};
use fields::places::{M_A, R_T, S_C, W_W, X_T};
use plan::{Kind, Plan, kind_at, package_at};

// Writes the lines of a row without package number and W: its mark, and its fields.
fn plain_row(
    out: &mut [u8],
    at: usize,
    mark: &[u8],
    path: &[u8],
    first: usize,
    count: usize,
    text: &[u8],
    rows: &[u32],
    i: usize,
) -> usize
    requires { ((i + 1) * stride ≤ length rows.now)
        × (first + count ≤ field_count)
        × (count ≤ 19)
        × (in_text text.now (record_at rows.now i) ≡ true)
        × (at + length (print (plain_row mark.now path.now first count text.now rows.now i)) ≤ length out.old) }
    ensures { Wrote out.old out.new at result (print (plain_row mark.now path.now first count text.now rows.now i)) }
{
    let a = text_line(out, at, b"row", mark);
    fields(out, a, path, first, count, text, rows, i * Plan::STRIDE + 2)
}

// Writes the lines of a medication's substances: w and s of each of its W.
fn substance_lines(out: &mut [u8], at: usize, text: &[u8], rows: &[u32], i: usize) -> usize
    requires { ((i + 1) * stride ≤ length rows.now)
        × (in_text text.now (record_at rows.now i) ≡ true)
        × (at + length (print (substance_lines text.now rows.now i)) ≤ length out.old) }
    ensures { Wrote out.old out.new at result (print (substance_lines text.now rows.now i)) }
{
    let k = i * Plan::STRIDE;
    let a = fields(out, at, b"MP.S.M.W.", W_W, 2, text, rows, k + 28);
    let b = fields(out, a, b"MP.S.M.W.", W_W, 2, text, rows, k + 32);
    fields(out, b, b"MP.S.M.W.", W_W, 2, text, rows, k + 36)
}

// Writes the lines of a medication row: its mark, its package number unless it has none, its other fields, and its substances.
fn medication_row(out: &mut [u8], at: usize, text: &[u8], rows: &[u32], i: usize) -> usize
    requires { ((i + 1) * stride ≤ length rows.now)
        × (in_text text.now (record_at rows.now i) ≡ true)
        × (at + length (print (medication_row text.now rows.now i)) ≤ length out.old) }
    ensures { Wrote out.old out.new at result (print (medication_row text.now rows.now i)) }
{
    let a = text_line(out, at, b"row", b"M");
    let b = number_line(out, a, b"MP.S.M.p", package_at(rows, i));
    let c = fields(
        out,
        b,
        b"MP.S.M.",
        M_A,
        13,
        text,
        rows,
        i * Plan::STRIDE + 2,
    );
    substance_lines(out, c, text, rows, i)
}

// Writes the lines of row i, counted from 0, and returns the place behind them. A row of no kind has its mark's line alone, without a mark.
pub fn row_lines(out: &mut [u8], at: usize, text: &[u8], rows: &[u32], i: usize) -> usize
    requires { ((i + 1) * stride ≤ length rows.now)
        × (in_text text.now (record_at rows.now i) ≡ true)
        × (at + length (print (row_lines (show_row text.now (record_at rows.now i)))) ≤ length out.old) }
    ensures { Wrote out.old out.new at result (print (row_lines (show_row text.now (record_at rows.now i)))) }
{
    match kind_at(rows, i) {
        Kind::Heading => plain_row(out, at, b"H", b"MP.S.", S_C, 2, text, rows, i),
        Kind::Medication => medication_row(out, at, text, rows, i),
        Kind::Recipe => plain_row(out, at, b"R", b"MP.S.R.", R_T, 2, text, rows, i),
        Kind::Note => plain_row(out, at, b"X", b"MP.S.X.", X_T, 1, text, rows, i),
        Kind::Unknown => plain_row(out, at, b"", b"", 0, 0, text, rows, i),
    }
}

// Writes the lines of the first n rows, and returns the place behind them.
pub fn rows_lines(out: &mut [u8], at: usize, text: &[u8], rows: &[u32], n: usize) -> usize
    requires { (n * stride ≤ length rows.now)
        × (fit_rows text.now n rows.now ≡ true)
        × (at + length (print (rows_lines (show_rows text.now n rows.now))) ≤ length out.old) }
    ensures { Wrote out.old out.new at result (print (rows_lines (show_rows text.now n rows.now))) }
{
    let mut a = at;
    for i in 0..n {
        a = row_lines(out, a, text, rows, i);
    }
    a
}

// Prints the listing of the plan that the numbers show into `out`, and returns its length. All other bytes of `out` stay.
pub fn list_plan(plan: Plan, rows: &[u32], text: &[u8], out: &mut [u8]) -> usize
    requires { (plan.rows * stride ≤ length rows.now)
        × (head_in_text text.now plan ≡ true)
        × (fit_rows text.now plan.rows rows.now ≡ true)
        × (length (listing (show_plan text.now plan rows.now)) ≤ length out.old) }
    ensures { (result ≡ length (listing (show_plan text.now plan rows.now)))
        × (out.new ≡ laid out.old 0 (listing (show_plan text.now plan rows.now))) }
{
    let a = head_lines(out, 0, plan.patch, plan.head, text);
    let b = rows_lines(out, a, text, rows, plan.rows as usize);
    count_line(out, b, b"rows", plan.rows)
}
