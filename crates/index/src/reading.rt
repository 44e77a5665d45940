// Reading with the index: the pages of a call, or those of a collector, to rows, text and index together.
ghost use Rattle.std.specs.Prelude.{◌≡◌, ◌*◌, ◌≤◌, length};
ghost use Rattle.paper.specs.Index.{index_of};
ghost use Rattle.room.specs.Laid.{laid};
ghost use Rattle.plan.specs.Numbers.{stride};
ghost use Rattle.index.specs.Pairs.{flat, rows_in};
ghost use Rattle.index.specs.Promise.{Promised, answered, collected_with};

use crate::build::{fill, index_fits};
use collector::store::Collector;
use plan::Plan;
use reader::answer::Refusal;

// What reading with the index gives: the plan by value, and how many pairs the index has.
#[derive(Clone, Copy, PartialEq, Eq)]
pub struct Indexed {
    pub plan: Plan,
    pub pairs: u32,
}

// A plan with the index of its rows, laid into the room.
fn with_index(plan: Plan, rows: &[u32], index: &mut [u32]) -> Indexed
    requires { (plan.rows ≤ 256) × (plan.rows * stride ≤ length rows.now) × (512 ≤ length index.old) }
    ensures { (result.plan ≡ plan) × (result.pairs ≡ length (index_of (rows_in plan.rows rows.now)))
        × (index.new ≡ laid index.old 0 (flat (index_of (rows_in plan.rows rows.now)))) }
{
    let pairs = fill(rows, plan.rows as usize, index);
    Indexed {
        plan,
        pairs: pairs as u32,
    }
}

// Reads the pages of a call as `reader::reading::read` does, and builds the index of their rows. Less room than for 256 pairs is 1; a refusal changes neither
// rows nor text nor index. Behind the index its room stays as it was.
pub fn read<'a>(
    buffer: &'a [u8],
    starts: &'a [usize],
    lens: &'a [usize],
    rows: &mut [u32],
    text: &mut [u8],
    index: &mut [u32],
) -> Result<Indexed, Refusal>
    ensures { Promised (answered rows.old text.old index.old buffer.now starts.now lens.now)
        rows.old text.old index.old result rows.new text.new index.new }
{
    if !index_fits(index.len()) {
        return Err(Refusal::NoRoom);
    }
    let plan = reader::reading::read(buffer, starts, lens, rows, text)?;
    Ok(with_index(plan, rows, index))
}

// Reads the pages of a collector as `collector::reading::read` does, and builds the index of their rows.
pub fn read_collected(
    c: Collector,
    rows: &mut [u32],
    text: &mut [u8],
    index: &mut [u32],
) -> Result<Indexed, Refusal>
    ensures { Promised (collected_with rows.old text.old index.old c)
        rows.old text.old index.old result rows.new text.new index.new }
{
    if !index_fits(index.len()) {
        return Err(Refusal::NoRoom);
    }
    let plan = collector::reading::read(c, rows, text)?;
    Ok(with_index(plan, rows, index))
}
