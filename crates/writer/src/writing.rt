// Writing: a plan in numbers to its fresh pages in a lent room.
ghost use Rattle.std.specs.Prelude.{◌≡◌, true, map, ◌*◌, ◌-◌, ◌≤◌, ◌<◌, length, get_or, take};
ghost use Rattle.std.proofs.Math.Seq.{slice};
ghost use Rattle.paper.specs.Lists.{concat};
ghost use Rattle.paper.specs.Fields.{S, is};
ghost use Rattle.paper.specs.Calls.{page_room};
ghost use Rattle.paper.specs.Writing.{pages};
ghost use Rattle.room.specs.Laid.{laid};
ghost use Rattle.plan.specs.Numbers.{rows_lent, record_at, kind_shown, show_rows, show_head, padded, stride};
ghost use Rattle.plan.specs.Records.{paper_kind, code_kind};
ghost use Rattle.sound.specs.Sound.{head_sound};
ghost use Rattle.writer.specs.Tags.{rows_placed};
ghost use Rattle.writer.specs.Cutting.{measure_of, sizes_in, Rising, parted};
ghost use Rattle.writer.specs.Promise.{Promised, answered, call_fits};

use crate::answer::Refusal;
use crate::cut::{cut_rows, size_in};
use crate::measure::{head_size, row_measures};
use crate::spelling::{heads, lay_page, lay_people};
use fields::lookup::keys;
use plan::rooms::pages_fit;
use plan::{Plan, kind_at};
use sound::{first_bad, head_sound};

// What writing gives: the number of pages, and the length of each. Lengths of pages that are not there are 0.
#[derive(Clone, Copy, PartialEq, Eq)]
pub struct Pages {
    pub count: u32,
    pub lens: [u32; 9],
}

// Whether the room is enough, and the rows counted are at most 256 and at most those lent. Rows and room are given as slice lengths.
#[tactic(auto, unfolding(crate::specs::Promise::call_fits))]
fn call_fits(count: usize, rows: usize, room: usize) -> bool
    ensures { result ≡ call_fits count (rows_lent rows) room }
{
    pages_fit(room) && count <= Plan::ROWS && count <= rows / Plan::STRIDE
}

// How many bytes the rows `from` up to `to` add to a page, from their numbers.
fn sizes_between(measures: &[u32], from: usize, to: usize) -> usize
    requires { (from ≤ to) × (to - from ≤ 256) × (to ≤ length measures.now) }
    ensures { result ≡ sizes_in (slice from to measures.now) }
{
    let mut size = 0;
    let part = &measures[from..to];
    for m in part {
        size += size_in(*m);
    }
    size
}

// Whether the rows `from` up to `to` begin with a heading.
fn begins_section(rows: &[u32], from: usize, to: usize) -> bool
    requires { (from ≤ to) × (to * stride ≤ length rows.now) }
    ensures { from < to → result ≡ is (paper_kind (code_kind (kind_shown (get_or (record_at rows.now from) 0 0)))) S }
{
    from < to && heads(kind_at(rows, from))
}

// Lays z pages one behind the other, from the room's beginning on, and gives their lengths. Page k has the rows up to ends[k], and none that an earlier one has.
// The rows are given as numbers for the cut, and as they are spelled one behind the other.
fn lay_pages(
    out: &mut [u8],
    plan: Plan,
    rows: &[u32],
    n: usize,
    measures: [u32; Plan::ROWS],
    ends: [usize; 9],
    z: usize,
    text: &[u8],
    spelt: &[u8],
) -> [u32; 9]
    requires { (head_sound text.now plan ≡ true) × (n * stride ≤ length rows.now) × (n ≤ 256) × (z ≤ 9)
        × Rising 0 (take z ends) n
        × (length (concat (pages (show_head text.now plan) z 1 (parted text.now rows.now 0 (take z ends)))) ≤ page_room) × (page_room ≤ length out.old)
        × (take n measures ≡ map measure_of (show_rows text.now n rows.now))
        × (take (length (rows_placed (show_rows text.now n rows.now))) spelt.now ≡ rows_placed (show_rows text.now n rows.now)) }
    ensures { (result ≡ padded 9 0 (map length (pages (show_head text.now plan) z 1 (parted text.now rows.now 0 (take z ends)))))
        × (out.new ≡ laid out.old 0 (concat (pages (show_head text.now plan) z 1 (parted text.now rows.now 0 (take z ends))))) }
{
    let keys = keys();
    let mut people = [0u8; 4096];
    let p = lay_people(&mut people, 0, &keys, plan, text);
    let mut lens = [0u32; 9];
    let mut at = 0;
    let mut from = 0;
    let mut begin = 0;
    for k in 0..z {
        let to = ends[k];
        let end = begin + sizes_between(&measures, from, to);
        let heading = begins_section(rows, from, to);
        let e = lay_page(
            out,
            at,
            &keys,
            plan,
            k as u8 + 1,
            z as u8,
            text,
            &people[..p],
            &spelt[begin..end],
            heading,
        );
        lens[k] = (e - at) as u32;
        at = e;
        from = to;
        begin = end;
    }
    lens
}

// Writes the plan that the numbers show as fresh pages into `out`. Refusals in document 01's order: the call (1), numbers that are not sound (13), a plan that
// nine pages do not take (14). Only where all pass is the room written. Any call may be made: nothing is required of it.
pub fn write(plan: Plan, rows: &[u32], text: &[u8], out: &mut [u8]) -> Result<Pages, Refusal>
    ensures { Promised (answered out.old plan rows.now text.now) out.old result out.new }
{
    let n = plan.rows as usize;
    if !call_fits(n, rows.len(), out.len()) {
        return Err(Refusal::NoRoom);
    }
    if !head_sound(plan, text) {
        return Err(Refusal::Unsound(0));
    }
    if let Some(row) = first_bad(rows, n, text) {
        return Err(Refusal::Unsound(row as u32));
    }
    let mut scratch = [0u8; 20800];
    let base = head_size(plan, text, &mut scratch);
    if base > Plan::PAGE {
        return Err(Refusal::TooLong(0));
    }
    let measures = row_measures(rows, n, text, &mut scratch);
    match cut_rows(base, measures, n) {
        Err(row) => Err(Refusal::TooLong(row as u32)),
        Ok(cut) => {
            let z = cut.pages;
            let lens = lay_pages(out, plan, rows, n, measures, cut.ends, z, text, &scratch);
            Ok(Pages {
                count: z as u32,
                lens,
            })
        }
    }
}
