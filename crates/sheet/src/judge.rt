// A page judged: whether it is refused, for which cause and where.
ghost use Rattle.std.specs.Prelude.{◌≡◌, true, ◌≤◌, length, MatchResult};
ghost use Rattle.paper.specs.Causes.{cause_number};
ghost use Rattle.paper.specs.Judging.{refused, judge};
ghost use Rattle.paper.specs.Sizes.{page_bytes};
ghost use Rattle.markup.specs.Walk.{tags_at};
ghost use Rattle.sheet.specs.Fold.{fold_page};
ghost use Rattle.sheet.specs.Judged.{fault_at, is_fine};

use crate::flaws::{flaw_of, needs_w};
use crate::found::find;
use crate::state::{Refusal, bars, before, close, enter_for, finish, kind_under};
use fields::lookup::{keys, limits};
use fields::table::RAWS;
use marks::first_refused;
use markup::scan::scan;
use markup::walk::{Mark, next_tag};
use paper::Cause;
use plan::Plan;

// The answer for the tags of a page: its least refusal, if there is one. The first element or attribute that has no place ends it: no refusal of tags is
// lower, and places go up. `scratch` is room for one value; what it then holds is of no meaning.
pub fn faults_of(page: &[u8], scratch: &mut [u8]) -> Result<(), Refusal>
    requires { (length page.now ≤ page_bytes) × (page_bytes ≤ length scratch.old) }
    ensures { MatchResult result (λ u. (fold_page (tags_at page.now 0)).no ≡ 9) (λ r. fold_page (tags_at page.now 0) ≡ fault_at r) }
{
    let keys = keys();
    let limits = limits();
    let mut raws = [0u16; RAWS];
    let mut st = before();
    let mut at = 0;
    loop {
        match next_tag(page, at) {
            None => {
                return match finish(st) {
                    Some(refusal) => Err(refusal),
                    None => Ok(()),
                };
            }
            Some(Mark::End { at: i }) => {
                st = close(st);
                at = i + 1;
            }
            Some(Mark::Start { at: i, name_end }) => {
                let out = Refusal {
                    cause: Cause::OutOfPlace,
                    place: i as u16,
                };
                let kind = kind_under(st.cur, &page[i + 1..name_end]);
                if bars(st, kind) {
                    return Err(out);
                }
                let Some(shut) = find(page, name_end, kind, &keys, &mut raws) else {
                    return Err(out);
                };
                let cause = flaw_of(page, kind, &raws, &limits, scratch);
                let needs = needs_w(page, kind, &raws, scratch);
                st = enter_for(st, kind, out.place, cause, needs, shut);
                at = i + 1;
            }
        }
    }
}

// The answer for any bytes: empty or above 1,400 (2), a byte that is not allowed (3), malformed (4), else the least fault of its tags.
// `scratch` is room for one value; what it then holds is of no meaning.
pub fn judge_page(page: &[u8], scratch: &mut [u8]) -> Result<(), Refusal>
    requires { page_bytes ≤ length scratch.old }
    ensures { MatchResult result (λ u. is_fine (judge page.now) ≡ true) (λ r. judge page.now ≡ refused (cause_number r.cause) r.place) }
{
    let n = page.len();
    if n == 0 || n > Plan::PAGE {
        return Err(Refusal {
            cause: Cause::Size,
            place: 0,
        });
    }
    let i = first_refused(page);
    if i < n {
        return Err(Refusal {
            cause: Cause::Byte,
            place: i as u16,
        });
    }
    if let Err(good) = scan(page) {
        return Err(Refusal {
            cause: Cause::Malformed,
            place: good as u16,
        });
    }
    faults_of(page, scratch)
}
