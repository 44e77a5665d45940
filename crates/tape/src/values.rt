// The values of an element, laid: their bytes into the side room, their places onto the tape.
ghost use Rattle.std.specs.Prelude.{◌≡◌, [], ◌∷◌, ◌+◌, ◌*◌, ◌≤◌, ◌<◌, length};
ghost use Rattle.std.proofs.Math.Seq.{slice};
ghost use Rattle.paper.specs.Lists.{concat};
ghost use Rattle.paper.specs.Sizes.{page_bytes};
ghost use Rattle.room.specs.Laid.{laid};
ghost use Rattle.fields.specs.Places.{kind_at, count_of, field_count, kind_count};
ghost use Rattle.sheet.specs.Found.{Lie, told};
ghost use Rattle.tape.specs.Making.{settled, LaysSlots};
ghost use Rattle.tape.specs.Tape.{aside};

use fields::dose::is_zero;
use fields::lookup::{count_of, first_of, rule_of};
use markup::values::decode;
use plan::Plan;
use room::lay;

// A start from here on says that the value lies in the side room.
const ASIDE: u16 = 32768;

// Lays the value that counts of a field into the room from `n` on, and returns the place behind it: a dose that is exactly "0" is absent. It is decoded
// elsewhere first, so that no other byte of the room changes.
fn lay_value(page: &[u8], from: usize, to: usize, id: usize, room: &mut [u8], n: usize) -> usize
    requires { (from ≤ to) × (to ≤ length page.now) × (length page.now ≤ page_bytes) × (id < field_count)
        × (n + length (settled id (slice from to page.now)) ≤ length room.old) }
    ensures { (result ≡ n + length (settled id (slice from to page.now)))
        × (room.new ≡ laid room.old n (settled id (slice from to page.now))) }
{
    let mut scratch = [0u8; Plan::PAGE];
    let k = decode(page, from, to, &mut scratch, 0);
    if is_zero(rule_of(id), &scratch[..k]) {
        return n;
    }
    lay(room, n, &scratch[..k])
}

// Lays the value of one field, whose raw bytes stand from `from` up to `to`: its bytes into the side room behind the `used` ones, its start and its end
// onto the tape at `at`. A value that is absent ends where it starts: behind its quote in the page, or at 0 where the attribute does not stand in the
// tag. Returns how many bytes are then in use.
fn lay_slot(
    page: &[u8],
    from: u16,
    to: u16,
    id: usize,
    tape: &mut [u16],
    at: usize,
    side: &mut [u8],
    used: usize,
) -> usize
    requires { (from ≤ to) × (to ≤ length page.now) × (length page.now ≤ page_bytes) × (id < field_count) × (at + 2 ≤ length tape.old)
        × (used + length (settled id (slice from to page.now)) ≤ length side.old) × (length side.old < aside) }
    ensures { LaysSlots page.now (settled id (slice from to page.now) ∷ [])
        tape.old tape.new at side.old side.new used result }
{
    let e = lay_value(page, from as usize, to as usize, id, side, used);
    if e == used {
        tape[at] = from;
        tape[at + 1] = from;
        return e;
    }
    tape[at] = used as u16 + ASIDE;
    tape[at + 1] = e as u16;
    e
}

// Lays the values of an element of that kind, field by field: their places onto the tape from `at` on, their bytes into the side room behind the `used`
// ones. Returns how many bytes are then in use.
pub fn lay_slots(
    page: &[u8],
    kind: u8,
    raws: &[u16],
    tape: &mut [u16],
    at: usize,
    side: &mut [u8],
    used: usize,
) -> usize
    requires { (length page.now ≤ page_bytes) × (kind < kind_count)
        × (2 * count_of (kind_at kind) ≤ length raws.now) × Lie page.now (count_of (kind_at kind)) raws.now × (at + 2 * count_of (kind_at kind) ≤ length tape.old)
        × (used + length (concat (told page.now (kind_at kind) raws.now)) ≤ length side.old) × (length side.old < aside) }
    ensures { LaysSlots page.now (told page.now (kind_at kind) raws.now)
        tape.old tape.new at side.old side.new used result }
{
    let first = first_of(kind);
    let count = count_of(kind);
    let mut m = used;
    for j in 0..count {
        let from = raws[2 * j];
        let to = raws[2 * j + 1];
        m = lay_slot(page, from, to, first + j, tape, at + 2 * j, side, m);
    }
    m
}
