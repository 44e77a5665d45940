// Refusal 13 on numbers: whether a plan's head and rows, as numbers that a caller hands in, are sound.
//
// The contracts cite specs/Sound.antt. A value is judged in `values`, an element's fields in `elements`, a head in `heads`, a row's record in `records`.
#![tactic(auto)]

ghost use Rattle.std.specs.Prelude.{◌≡◌, ◌*◌, ◌≤◌, ◌<◌, length, MatchOption};
ghost use Rattle.plan.specs.Numbers.{stride};
ghost use Rattle.sound.specs.Sound.{head_sound, first_bad_in};

pub mod elements;
pub mod heads;
pub mod records;
pub mod values;

use crate::heads::fine_head;
use crate::records::record_sound;
use fields::lookup::limits;
use plan::{Plan, head_numbers};

// Whether a plan's head, as numbers, is sound.
#[tactic(auto, using(crate::proofs::HeadLaws::patch_over, crate::proofs::HeadLaws::patch_within))]
pub fn head_sound(plan: Plan, text: &[u8]) -> bool
    ensures { result ≡ head_sound text.now plan }
{
    plan.patch <= 99 && fine_head(&head_numbers(plan.head), text, &limits())
}

// The first of the first n rows that is bad, counted from 1; none if none is.
#[tactic(auto, using(crate::proofs::RecordLaws::rows_more, crate::proofs::RecordLaws::part_sound))]
pub fn first_bad(rows: &[u32], n: usize, text: &[u8]) -> Option<usize>
    requires { n * stride ≤ length rows.now }
    ensures { MatchOption result (first_bad_in 1 text.now n rows.now ≡ 0) (λ row. (0 < row) × (row ≡ first_bad_in 1 text.now n rows.now)) }
{
    let limits = limits();
    for i in 0..n {
        let at = i * Plan::STRIDE;
        if !record_sound(&rows[at..at + Plan::STRIDE], text, &limits) {
            return Some(i + 1);
        }
    }
    None
}
