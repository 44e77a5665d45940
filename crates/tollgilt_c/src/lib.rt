// The static library of the crate `tollgilt`: the functions that programs in C and Rust call. Each is the function of that name in `tollgilt::border`, and
// promises the same. `tools/archive tollgilt` makes libtollgilt.a of it; include/tollgilt.h is its manual.
#![tactic(auto)]

ghost use Rattle.tollgilt.specs.Cells as Cells;
ghost use Rattle.tollgilt.specs.Find as Find;
ghost use Rattle.tollgilt.specs.Fresh as Fresh;
ghost use Rattle.tollgilt.specs.Promise.{Handed, answered};

use tollgilt::border;

// Lists the pages of a call.
#[unsafe(no_mangle)]
pub extern "C" fn tollgilt_list<'a>(
    buffer: &'a [u8],
    starts: &'a [usize],
    lens: &'a [usize],
    out: &mut [u8],
    told: &mut [u32; 3],
) -> u32
    ensures { Handed (answered out.old buffer.now starts.now lens.now) out.old result out.new told.new }
{
    border::tollgilt_list(buffer, starts, lens, out, told)
}

// Writes the plan of a call's pages as fresh pages.
#[unsafe(no_mangle)]
pub extern "C" fn tollgilt_fresh<'a>(
    buffer: &'a [u8],
    starts: &'a [usize],
    lens: &'a [usize],
    out: &mut [u8],
    told: &mut [u32; 12],
) -> u32
    ensures { Fresh.Handed (Fresh.answered out.old buffer.now starts.now lens.now) out.old result out.new told.new }
{
    border::tollgilt_fresh(buffer, starts, lens, out, told)
}

// Finds the rows of a call's plan that hold a package number.
#[unsafe(no_mangle)]
pub extern "C" fn tollgilt_find<'a>(
    buffer: &'a [u8],
    starts: &'a [usize],
    lens: &'a [usize],
    number: u32,
    list: &mut [u32],
    told: &mut [u32; 3],
) -> u32
    ensures { Find.Handed (Find.answered list.old buffer.now starts.now lens.now) number list.old result list.new told.new }
{
    border::tollgilt_find(buffer, starts, lens, number, list, told)
}

// Lays the text of a printed cell of a call's plan.
#[unsafe(no_mangle)]
pub extern "C" fn tollgilt_cell<'a>(
    buffer: &'a [u8],
    starts: &'a [usize],
    lens: &'a [usize],
    catalogue: &'a [u8],
    row: usize,
    field: u32,
    which: usize,
    out: &mut [u8],
    told: &mut [usize; 7],
) -> u32
    ensures { Cells.Handed (Cells.answered out.old buffer.now starts.now lens.now catalogue.now row field which) out.old result out.new told.new }
{
    border::tollgilt_cell(
        buffer, starts, lens, catalogue, row, field, which, out, told,
    )
}
