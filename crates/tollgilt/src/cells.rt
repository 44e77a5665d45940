// Cells: the pages of a call to the text of a printed cell of their plan, or to the one refusal that document 01 has for them.
ghost use Rattle.std.specs.Prelude.{◌≤◌, ◌-◌, length};
ghost use Rattle.plan.specs.Numbers.{record_at};
ghost use Rattle.cell.specs.Numbered.{field_of, cell_at};
ghost use Rattle.cell.specs.Answers.{place_for, text_of};
ghost use Rattle.tollgilt.specs.Cells.{Promised, answered, answer_of};

use crate::refused::Refused;
use cell::answer::Source;
use cell::{Cell, cell_answer, cell_text};
use plan::Plan;
use reader::reading::read;
use room::lay;

// What a printed cell shows: where its text comes from, how many bytes the text has, whether "..." follows, how many bytes were left out, and whether 0 is printed.
#[derive(Clone, Copy, PartialEq, Eq)]
pub struct CellShown {
    pub source: Source,
    pub length: usize,
    pub more: bool,
    pub omitted: usize,
    pub zero: bool,
}

// Lays the text of a cell of these rows at the beginning of `out`, and tells what the cell shows; refusal 1 where there is no such cell.
fn lay_cell<'a>(
    rows: &'a [u32],
    count: usize,
    text: &'a [u8],
    catalogue: &'a [u8],
    row: usize,
    field: u32,
    which: usize,
    out: &mut [u8],
) -> Result<CellShown, Refused>
    requires { length (text_of (cell_at rows.now count text.now catalogue.now row field which)) ≤ length out.old }
    ensures { Promised (answer_of (place_for (record_at rows.now (row - 1)) (field_of field which) catalogue.now).0 (cell_at rows.now count text.now catalogue.now row field which)) out.old result out.new }
{
    match cell_answer(rows, count, text, catalogue, row, field, which) {
        Ok(s) => {
            let shown = cell_text(rows, count, text, catalogue, row, field, which);
            let length = lay(out, 0, shown);
            Ok(CellShown {
                source: s.source,
                length,
                more: s.more,
                omitted: s.omitted,
                zero: s.zero,
            })
        }
        Err(_) => Err(Refused::one()),
    }
}

// Lays the text of a printed cell of a call's plan at the beginning of `out`, and tells what the cell shows: the page i lies in the buffer from starts[i] on,
// lens[i] bytes long; `catalogue` is the catalogue's text for this cell, all of it, empty if there is none; rows are counted from 1, `field` and `which` are as
// `cell` counts them. Document 01 reads the pages, and a cell that the plan does not have is refusal 1. A refusal changes nothing in `out`; room for fewer than
// 80 bytes is refusal 1. Behind the text `out` stays as it was. Any call may be made: nothing is required of it.
pub fn cell_pages<'a>(
    buffer: &'a [u8],
    starts: &'a [usize],
    lens: &'a [usize],
    catalogue: &'a [u8],
    row: usize,
    field: u32,
    which: usize,
    out: &mut [u8],
) -> Result<CellShown, Refused>
    ensures { Promised (answered out.old buffer.now starts.now lens.now catalogue.now row field which) out.old result out.new }
{
    if out.len() < Cell::SUBSTANCE {
        return Err(Refused::one());
    }
    let mut rows = [0u32; Plan::NUMBERS];
    let mut text = [0u8; Plan::TEXT];
    let plan = read(buffer, starts, lens, &mut rows, &mut text)?;
    let count = plan.rows as usize;
    lay_cell(&rows, count, &text, catalogue, row, field, which, out)
}
