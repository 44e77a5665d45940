// Doses: digits; digits, comma, digits; or digits, "/", digits with a denominator above zero.
ghost use Rattle.std.specs.Prelude.{◌≡◌, drop};
ghost use Rattle.paper.specs.Rules.{tail_ok, is_dose, is_zero};
ghost use Rattle.fields.specs.Places.{rule_at};

use crate::sets::{DIGIT, above_zero, all_in, fits, run};

// Whether what stands behind the first digits is nothing, a comma and digits, or a slash and digits that are above zero.
#[tactic(auto, using(crate::proofs::NumberLaws::above), unfolding(crate::specs::Sets::in_set))]
fn tail_ok(v: &[u8], n: usize) -> bool
    ensures { result ≡ tail_ok (drop n v.now) }
{
    if n >= v.len() {
        return true;
    }
    let s = n + 1;
    s < v.len() && all_in(v, s, DIGIT) && (v[n] == b',' || v[n] == b'/' && above_zero(v, s))
}

// Whether a value is a dose.
#[tactic(auto, unfolding(crate::specs::Sets::in_set))]
pub fn is_dose(v: &[u8]) -> bool
    ensures { result ≡ is_dose v.now }
{
    let n = run(v, 0, DIGIT);
    n >= 1 && tail_ok(v, n)
}

// Whether a value of a rule reads as absent: in a dose exactly "0".
#[tactic(auto, unfolding(crate::specs::Sets::in_set))]
pub fn is_zero(rule: u8, v: &[u8]) -> bool
    ensures { result ≡ is_zero (rule_at rule) v.now }
{
    rule == 14 && fits(v, b"0")
}
