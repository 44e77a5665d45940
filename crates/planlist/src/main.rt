// Planlist: reads the pages of a medication plan from standard input, separated by one zero byte, at most 12,609 bytes, and prints the listing of their plan,
// or the three lines of a refusal. It ends normally on every input, with status 0; a read or a write that fails ends it with status 1 and a line on the error
// output. It allocates nothing.
#![tactic(auto)]

use intake::fill;
use plan::Plan;
use std::io;
use tollgilt::input::{INPUT, list_input};

fn main(rt: HostRuntime) -> io::Result<()> {
    let mut input = [0u8; INPUT];
    let n = fill(&mut rt.stdin(), &mut input)?;
    let mut out = [0u8; Plan::LISTING];
    let k = list_input(&input[..n], &mut out).unwrap_or(0);
    rt.write_all(&out[..k])
}
