// Sizes: what the head and each row add to a page. They are spelled into a scratch room, so that there is one spelling and no second count. The rows stay there:
// pages are put together from them.
ghost use Rattle.std.specs.Prelude.{◌≡◌, true, [], map, ◌+◌, ◌*◌, ◌≤◌, length, take};
ghost use Rattle.paper.specs.Writing.{page};
ghost use Rattle.room.specs.Laid.{laid};
ghost use Rattle.fields.specs.Columns.{key_column};
ghost use Rattle.plan.specs.Numbers.{record_at, show_row, show_rows, show_head, stride};
ghost use Rattle.sound.specs.Sound.{head_sound, record_sound, records_sound};
ghost use Rattle.writer.specs.Cutting.{measure_of};
ghost use Rattle.writer.specs.Tags.{placed_text, rows_placed, Stays};

use crate::cut::size_in;
use crate::spelling::{heads, lay_page, lay_people, lay_placed};
use fields::lookup::keys;
use plan::{Plan, kind_at};

// How many bytes a page without rows has.
pub fn head_size(plan: Plan, text: &[u8], scratch: &mut [u8]) -> usize
    requires { (head_sound text.now plan ≡ true) × (8192 ≤ length scratch.old) }
    ensures { result ≡ length (page (show_head text.now plan) [] 1 1) }
{
    let keys = keys();
    let mut people = [0u8; 4096];
    let p = lay_people(&mut people, 0, &keys, plan, text);
    lay_page(
        scratch,
        0,
        &keys,
        plan,
        1,
        1,
        text,
        &people[..p],
        b"",
        false,
    )
}

// The number of row i for the cut: twice what it adds to a page, and one more for a heading. It is spelled into the scratch room from a place on, behind what
// stands before it where others come first: a heading brings the end of the section before it.
fn row_measure(
    rows: &[u32],
    i: usize,
    text: &[u8],
    keys: &[u64],
    scratch: &mut [u8],
    at: usize,
) -> u32
    requires { (keys.now ≡ key_column)
        × ((i + 1) * stride ≤ length rows.now)
        × (record_sound text.now (record_at rows.now i) ≡ true)
        × (at + 8196 ≤ length scratch.old) }
    ensures { (result ≡ measure_of (show_row text.now (record_at rows.now i)))
        × (scratch.new ≡ laid scratch.old at (placed_text true (show_row text.now (record_at rows.now i)))) }
{
    let e = lay_placed(scratch, at, keys, rows, i, true, text);
    let size = (e - at) as u32;
    let kind = kind_at(rows, i);
    if heads(kind) {
        return size * 2 + 1;
    }
    size * 2
}

// The numbers of the first n rows for the cut. Up to the room of nine pages the rows stay in the scratch room, one behind the other.
pub fn row_measures(rows: &[u32], n: usize, text: &[u8], scratch: &mut [u8]) -> [u32; Plan::ROWS]
    requires { (n ≤ 256) × (n * stride ≤ length rows.now) × (records_sound text.now n rows.now ≡ true) × (20800 ≤ length scratch.old) }
    ensures { (take n result ≡ map measure_of (show_rows text.now n rows.now))
        × Stays scratch.new (rows_placed (show_rows text.now n rows.now)) }
{
    let keys = keys();
    let mut measures = [0u32; Plan::ROWS];
    let mut at = 0;
    for i in 0..n {
        let m = row_measure(rows, i, text, &keys, scratch, at);
        measures[i] = m;
        let end = at + size_in(m);
        if end <= Plan::PAGES {
            at = end;
        }
    }
    measures
}
