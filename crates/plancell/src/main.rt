// Plancell: reads from standard input the number of a row of a medication plan, the number of a field and which of three, each in one to eight digits with a zero byte
// behind it, the catalogue's text for the cell, at most 1,000 bytes, a zero byte, and then the pages of the plan, separated by one zero byte, at most 12,609 bytes.
// It prints what the cell shows, or the three lines of a refusal. It ends normally on every input, with status 0; a read or a write that fails ends it with
// status 1 and a line on the error output. It allocates nothing.
#![tactic(auto)]

use intake::fill;
use std::io;
use tollgilt::input::{CELL_ASKING, CELL_LINES, cell_input};

fn main(rt: HostRuntime) -> io::Result<()> {
    let mut input = [0u8; CELL_ASKING];
    let n = fill(&mut rt.stdin(), &mut input)?;
    let mut out = [0u8; CELL_LINES];
    let k = cell_input(&input[..n], &mut out).unwrap_or(0);
    rt.write_all(&out[..k])
}
