// Border: the functions that programs in C and Rust call, by way of the crate `tollgilt_c`, which exports them. Only numbers and byte ranges cross it; a slice
// crosses as a pointer and a length.
ghost use Rattle.tollgilt.specs.Cells as Cells;
ghost use Rattle.tollgilt.specs.Find as Find;
ghost use Rattle.tollgilt.specs.Fresh as Fresh;
ghost use Rattle.tollgilt.specs.Promise.{Handed, answered};

use crate::cells::cell_pages;
use crate::find::find_pages;
use crate::fresh::fresh_pages;
use crate::list::list_pages;

// Lists the pages of a call into `out`, as `list_pages` does. Returns the number of the refusal, 0 for a listing. Tells the length of the listing, and the
// page and the place of the refusal: the length is 0 for a refusal, page and place are 0 for a listing.
pub fn tollgilt_list<'a>(
    buffer: &'a [u8],
    starts: &'a [usize],
    lens: &'a [usize],
    out: &mut [u8],
    told: &mut [u32; 3],
) -> u32
    ensures { Handed (answered out.old buffer.now starts.now lens.now) out.old result out.new told.new }
{
    match list_pages(buffer, starts, lens, out) {
        Ok(length) => {
            *told = [length, 0, 0];
            0
        }
        Err(e) => {
            *told = [0, e.page, e.place];
            e.number
        }
    }
}

// Writes the plan of a call's pages as fresh pages into `out`, as `fresh_pages` does. Returns the number of the refusal, 0 for pages. Tells the number of pages,
// the page and the place of the refusal, and the nine lengths of the pages: number and lengths are 0 for a refusal, page and place are 0 for pages, and the
// lengths of pages that are not there are 0.
pub fn tollgilt_fresh<'a>(
    buffer: &'a [u8],
    starts: &'a [usize],
    lens: &'a [usize],
    out: &mut [u8],
    told: &mut [u32; 12],
) -> u32
    ensures { Fresh.Handed (Fresh.answered out.old buffer.now starts.now lens.now) out.old result out.new told.new }
{
    match fresh_pages(buffer, starts, lens, out) {
        Ok(p) => {
            let l = p.lens;
            *told = [
                p.count, 0, 0, l[0], l[1], l[2], l[3], l[4], l[5], l[6], l[7], l[8],
            ];
            0
        }
        Err(e) => {
            *told = [0, e.page, e.place, 0, 0, 0, 0, 0, 0, 0, 0, 0];
            e.number
        }
    }
}

// Finds the rows of a call's plan that hold a package number, as `find_pages` does. Returns the number of the refusal, 0 for a plan. Tells how many rows hold the
// number, and the page and the place of the refusal: the rows are 0 for a refusal, page and place are 0 for a plan.
pub fn tollgilt_find<'a>(
    buffer: &'a [u8],
    starts: &'a [usize],
    lens: &'a [usize],
    number: u32,
    list: &mut [u32],
    told: &mut [u32; 3],
) -> u32
    ensures { Find.Handed (Find.answered list.old buffer.now starts.now lens.now) number list.old result list.new told.new }
{
    match find_pages(buffer, starts, lens, number, list) {
        Ok(rows) => {
            *told = [rows, 0, 0];
            0
        }
        Err(x) => {
            *told = [0, x.page, x.place];
            x.number
        }
    }
}

// Lays the text of a printed cell of a call's plan into `out`, as `cell_pages` does. Returns the number of the refusal, 0 for a cell. Tells the length of the text,
// the page and the place of the refusal, where the text comes from (1 the plan, 2 the catalogue, 0 neither), the flag that "..." follows, the mark that 0 is
// printed, and how many bytes were left out: for a refusal all but page and place are 0, for a cell page and place are 0.
pub fn tollgilt_cell<'a>(
    buffer: &'a [u8],
    starts: &'a [usize],
    lens: &'a [usize],
    catalogue: &'a [u8],
    row: usize,
    field: u32,
    which: usize,
    out: &mut [u8],
    told: &mut [usize; 7],
) -> u32
    ensures { Cells.Handed (Cells.answered out.old buffer.now starts.now lens.now catalogue.now row field which) out.old result out.new told.new }
{
    match cell_pages(buffer, starts, lens, catalogue, row, field, which, out) {
        Ok(c) => {
            let source = c.source.number() as usize;
            *told = [
                c.length,
                0,
                0,
                source,
                c.more as usize,
                c.zero as usize,
                c.omitted,
            ];
            0
        }
        Err(e) => {
            *told = [0, e.page as usize, e.place as usize, 0, 0, 0, 0];
            e.number
        }
    }
}
