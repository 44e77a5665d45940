// Planfind: reads a package number from standard input, one to eight digits, a zero byte, and then the pages of a medication plan, separated by one zero byte, at
// most 12,609 bytes, and prints how many rows of their plan hold the number, and which, or the three lines of a refusal. It ends normally on every input, with
// status 0; a read or a write that fails ends it with status 1 and a line on the error output. It allocates nothing.
#![tactic(auto)]

use intake::fill;
use std::io;
use tollgilt::input::{ASKING, FOUND, find_input};

fn main(rt: HostRuntime) -> io::Result<()> {
    let mut input = [0u8; ASKING];
    let n = fill(&mut rt.stdin(), &mut input)?;
    let mut out = [0u8; FOUND];
    let k = find_input(&input[..n], &mut out).unwrap_or(0);
    rt.write_all(&out[..k])
}
