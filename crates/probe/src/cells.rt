// A printed cell, for the tests.
use cell::{cell_answer, cell_text};
use room::lay;

// The text of a cell, laid at the beginning of `out`: its length, or a million if the room is too small.
#[unsafe(no_mangle)]
pub extern "C" fn probe_cell_text<'a>(
    rows: &'a [u32],
    count: usize,
    text: &'a [u8],
    catalogue: &'a [u8],
    row: usize,
    field: u32,
    which: usize,
    out: &mut [u8],
) -> u64 {
    let shown = cell_text(rows, count, text, catalogue, row, field, which);
    if out.len() < shown.len() {
        return 1000000;
    }
    lay(out, 0, shown) as u64
}

// The number of a cell's refusal, 0 for a cell; in `told` the number of the source of its text, where the text begins there, its length, whether "..."
// follows, whether 0 is printed and how many bytes were left out. Of a refused cell all six are 0.
#[unsafe(no_mangle)]
pub extern "C" fn probe_cell<'a>(
    rows: &'a [u32],
    count: usize,
    text: &'a [u8],
    catalogue: &'a [u8],
    row: usize,
    field: u32,
    which: usize,
    told: &mut [usize; 6],
) -> u32 {
    match cell_answer(rows, count, text, catalogue, row, field, which) {
        Ok(s) => {
            *told = [
                s.source.number() as usize,
                s.at,
                s.len,
                s.more as usize,
                s.zero as usize,
                s.omitted,
            ];
            0
        }
        Err(refusal) => {
            told.fill(0);
            refusal.number()
        }
    }
}
