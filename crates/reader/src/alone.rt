// One page by itself, and two beside each other, of pages that are known to be sheets: what a page says of its place in the plan, and whether two belong to one.
ghost use Rattle.std.specs.Prelude.{◌≡◌, ◌&&◌, eqb};
ghost use Rattle.paper.specs.Plan.{same_head};
ghost use Rattle.markup.specs.Walk.{tags_at};
ghost use Rattle.sheet.specs.Content.{head_from, content_of};
ghost use Rattle.tape.specs.Making.{IsSheet};

use crate::taping::{BLANKS, ONE, TWO};
use fields::lookup::keys;
use page::content::{alike, count_said, find_head, number_of};
use plan::Plan;
use tape::exact::lay_page;

// The number of a page, and how many there are, as it says.
#[derive(Clone, Copy)]
pub struct Said {
    pub no: u8,
    pub of: u8,
}

// What a page says of its place in the plan.
pub fn numbers_of(page: &[u8]) -> Said
    requires { IsSheet page.now }
    ensures { (result.no ≡ (content_of (tags_at page.now 0)).no) × (result.of ≡ (content_of (tags_at page.now 0)).of) }
{
    let keys = keys();
    let mut tape = [0u16; ONE];
    let mut side = [0u8; Plan::PAGE];
    let made = lay_page(page, &keys, &mut tape, BLANKS, &mut side, 0);
    let h = find_head(page, &side, &tape, BLANKS, made.end);
    let no = number_of(page, &side, &tape, h.mp);
    let of = count_said(page, &side, &tape, h.mp);
    Said {
        no: no as u8,
        of: of as u8,
    }
}

// Whether two pages have the same count and the same head.
pub fn belong<'a>(one: &'a [u8], two: &'a [u8]) -> bool
    requires { IsSheet one.now × IsSheet two.now }
    ensures { result ≡ (eqb (content_of (tags_at two.now 0)).of (content_of (tags_at one.now 0)).of
        && same_head (head_from (tags_at two.now 0)) (head_from (tags_at one.now 0))) }
{
    let keys = keys();
    let mut tape = [0u16; TWO];
    let mut side = [0u8; 2 * Plan::PAGE];
    let a = lay_page(one, &keys, &mut tape, BLANKS, &mut side, 0);
    let b = lay_page(two, &keys, &mut tape, a.end, &mut side, a.used);
    let h = find_head(one, &side, &tape, BLANKS, a.end);
    let k = find_head(two, &side, &tape, a.end, b.end);
    alike(one, two, &side, &tape, h, k)
}
