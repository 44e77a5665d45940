// The kind of an element, by its name alone: the nine names are distinct.
ghost use Rattle.std.specs.Prelude.{◌≡◌, [], ◌∷◌, ◌≤◌, ◌<◌, length};
ghost use Rattle.std.proofs.Math.Seq.{slice};
ghost use Rattle.paper.specs.Fields.{code};
ghost use Rattle.sheet.specs.Content.{kind_named};

use fields::places::{A, M, MP, O, P, R, S, W, X};
use room::spells;

// The kind of an element whose name is that one letter; 0 for any other letter.
#[tactic(auto, unfolding(sheet::specs::Content::kind_named))]
fn kind_lettered(b: u8) -> u8
    ensures { (result ≡ code (kind_named (b ∷ []))) × (result < 10) }
{
    match b {
        b'P' => P,
        b'A' => A,
        b'O' => O,
        b'S' => S,
        b'M' => M,
        b'W' => W,
        b'R' => R,
        b'X' => X,
        _ => 0,
    }
}

// The kind of an element by its name, which stands in the page from `from` to `to`; 0 for any other name.
pub fn kind_named(page: &[u8], from: usize, to: usize) -> u8
    requires { (from ≤ to) × (to ≤ length page.now) }
    ensures { (result ≡ code (kind_named (slice from to page.now))) × (result < 10) }
{
    if to - from == 1 {
        return kind_lettered(page[from]);
    }
    if spells(page, from, to, b"MP") { MP } else { 0 }
}
