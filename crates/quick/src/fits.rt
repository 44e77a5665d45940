// Whether the fields of an element on the tape go together.
ghost use Rattle.std.specs.Prelude.{◌≡◌, true, false, ◌&&◌, List, ℕ, ◌+◌, ◌*◌, ◌≤◌, ◌<◌, length, get_or};
ghost use Rattle.paper.specs.Fields as Kinds;
ghost use Rattle.paper.specs.Fields.{fields_of};
ghost use Rattle.paper.specs.Grammar.{Attr};
ghost use Rattle.paper.specs.Judging.{slots_of};
ghost use Rattle.fields.specs.Places.{kind_at, kind_count};
ghost use Rattle.sheet.specs.Fold.{needs_w};
ghost use Rattle.tape.specs.Tape.{shown_in, Span, Spans, Holds};
ghost use Rattle.quick.specs.Fits as Spec;

use fields::places::{A, M, MP, P, R, W, X};
use quoted::value::ASIDE;
use sheet::flaws::{clashes, digits_flaw};

// Whether field `j` of the slots that begin at `base` has a value that counts.
fn is_there(tape: &[u16], base: usize, j: usize) -> bool
    requires { (base + 2 * j + 1 < length tape.now) × (length tape.now < 65536) }
    ensures { result ≡ Spec.present tape.now base j }
{
    let s = base + 2 * j;
    tape[s] != tape[s + 1]
}

// The first byte of the value that the two numbers at a place of the tape tell, 0 if it is absent.
fn first_byte(page: &[u8], side: &[u8], tape: &[u16], s: usize) -> u8
    requires { (s + 1 < length tape.now) × (length tape.now < 65536) × Span page.now (length side.now) (get_or tape.now s 0) (get_or tape.now (s + 1) 0) }
    ensures { result ≡ get_or (shown_in page.now side.now (get_or tape.now s 0) (get_or tape.now (s + 1) 0)) 0 0 }
{
    let a = tape[s] as usize;
    let b = tape[s + 1] as usize;
    if a == b {
        return 0;
    }
    if a < ASIDE { page[a] } else { side[a - ASIDE] }
}

// Whether v and U of MP are there, and a and z are a page of so many, or neither is there.
fn plan_fits(page: &[u8], tape: &[u16], base: usize, side: &[u8]) -> bool
    requires { (base + 12 ≤ length tape.now) × (length tape.now < 65536) × Spans page.now (length side.now) 6 tape.now base }
    ensures { result ≡ true → Spec.Fits page.now side.now Kinds.MP tape.now base }
{
    if !is_there(tape, base, 0) || !is_there(tape, base, 2) {
        return false;
    }
    let a = first_byte(page, side, tape, base + 8);
    let z = first_byte(page, side, tape, base + 10);
    digits_flaw(a, z).is_none()
}

// Whether g, f and b of P are there.
fn person_fits(tape: &[u16], base: usize) -> bool
    requires { (base + 16 ≤ length tape.now) × (length tape.now < 65536) }
    ensures { result ≡ (Spec.present tape.now base 0 && (Spec.present tape.now base 1 && Spec.present tape.now base 2)) }
{
    is_there(tape, base, 0) && is_there(tape, base, 1) && is_there(tape, base, 2)
}

// Whether n and t of A are there.
fn author_fits(tape: &[u16], base: usize) -> bool
    requires { (base + 20 ≤ length tape.now) × (length tape.now < 65536) }
    ensures { result ≡ (Spec.present tape.now base 3 && Spec.present tape.now base 9) }
{
    is_there(tape, base, 3) && is_there(tape, base, 9)
}

// Whether the fields of an element go together.
pub fn tag_fits(page: &[u8], kind: u8, tape: &[u16], base: usize, side: &[u8]) -> bool
    requires { (kind < kind_count) × (base + 2 * length (fields_of (kind_at kind)) ≤ length tape.now) × (length tape.now < 65536)
        × Spans page.now (length side.now) (length (fields_of (kind_at kind))) tape.now base }
    ensures { result ≡ true → Spec.Fits page.now side.now (kind_at kind) tape.now base }
{
    if clashes(kind, tape, base) {
        return false;
    }
    match kind {
        MP => plan_fits(page, tape, base, side),
        P => person_fits(tape, base),
        A => author_fits(tape, base),
        W | R | X => is_there(tape, base, 0),
        _ => true,
    }
}

// Whether an element is an M that has neither p nor a.
pub fn needs_w(kind: u8, tape: &[u16], base: usize) -> bool
    requires { (kind < kind_count) × (base + 2 * length (fields_of (kind_at kind)) ≤ length tape.now) × (length tape.now < 65536) }
    ensures { (w side : List ℕ) (l : List Attr) → Holds w side (length side) (kind_at kind) tape.now base l → result ≡ needs_w (kind_at kind) (slots_of (fields_of (kind_at kind)) l) }
{
    kind == M && !is_there(tape, base, 0) && !is_there(tape, base, 1)
}
