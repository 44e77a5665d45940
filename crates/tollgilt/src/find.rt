// Find: the pages of a call and a package number to the rows of their plan that hold it, or to the one refusal that document 01 has for them.
ghost use Rattle.std.specs.Prelude.{◌≡◌};
ghost use Rattle.tollgilt.specs.Find.{Promised, answered, count_of};

use crate::refused::Refused;
use index::answer::{Held, Refusal};
use index::ask::all;
use index::pairs::NUMBERS;
use index::reading::read;
use plan::Plan;

// How many rows an index tells; none but those that hold the number.
fn held(reply: Result<Option<Held>, Refusal>) -> u32
    ensures { result ≡ count_of reply }
{
    match reply {
        Ok(Some(held)) => held.count,
        _ => 0,
    }
}

// Finds the rows of a call's plan that hold a package number, lays them into `list`, counted from 1, ascending, and returns how many they are: the page i lies in the buffer from starts[i]
// on, lens[i] bytes long. Document 01 reads the pages; the number 0, and any other that no row holds, is on the plan in no row, whatever its check digit. A
// refusal changes nothing in `list`; room for fewer than 256 numbers is refusal 1. Behind the rows `list` stays as it was. Any call may be made: nothing is
// required of it.
pub fn find_pages<'a>(
    buffer: &'a [u8],
    starts: &'a [usize],
    lens: &'a [usize],
    number: u32,
    list: &mut [u32],
) -> Result<u32, Refused>
    ensures { Promised (answered list.old buffer.now starts.now lens.now) number list.old result list.new }
{
    if list.len() < Plan::ROWS {
        return Err(Refused::one());
    }
    let mut rows = [0u32; Plan::NUMBERS];
    let mut text = [0u8; Plan::TEXT];
    let mut index = [0u32; NUMBERS];
    let indexed = read(buffer, starts, lens, &mut rows, &mut text, &mut index)?;
    let reply = all(
        &rows,
        indexed.plan.rows,
        &index,
        indexed.pairs,
        number,
        list,
    );
    Ok(held(reply))
}
