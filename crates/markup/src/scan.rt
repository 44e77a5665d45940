// The scan: whether a page is well-formed, and if not, how far its beginning is good.
ghost use Rattle.std.specs.Prelude.{◌≡◌, ◌≤◌, length};
ghost use Rattle.paper.specs.Sizes.{page_bytes};
ghost use Rattle.markup.specs.Extent.{extent_of, behind_at};

use crate::tables::{
    AFTER, BARE, BEFORE, CLOSE, CLOSING, GROW, INSIDE, KINDS, NEXT, PUSH, SLASH, TAG, UP,
};

// The mode behind an element's end, where so many elements are still open.
fn behind(depth: usize) -> u8
    ensures { result ≡ behind_at depth }
{
    if depth == 0 { AFTER } else { INSIDE }
}

// Whether a page is well-formed; if not, so many of its first bytes are the longest beginning that some well-formed page shares. One step a byte: the
// table gives the next mode, or an act on the open elements, of whose names `starts` and `ends` hold the places, innermost last; `k` to `e` is what an
// end tag's name must still spell. Modes and acts stay numbers, since they are the entries of a table that is made.
pub fn scan(page: &[u8]) -> Result<(), usize>
    requires { length page.now ≤ page_bytes }
    ensures { result ≡ extent_of page.now }
{
    let kinds = KINDS;
    let next = NEXT;
    let mut starts = [0u16; 467];
    let mut ends = [0u16; 467];
    let mut depth = 0;
    let mut mode = BEFORE;
    let mut k = 0;
    let mut e = 0;
    for (i, &b) in page.iter().enumerate() {
        if k < e {
            if b != page[k] {
                return Err(i);
            }
            k += 1;
            continue;
        }
        match next[mode as usize * 26 + kinds[b as usize] as usize] {
            a if a < PUSH => mode = a,
            PUSH => {
                starts[depth] = i as u16;
                ends[depth] = (i + 1) as u16;
                depth += 1;
                mode = TAG;
            }
            GROW => ends[depth - 1] = (i + 1) as u16,
            CLOSE => {
                depth -= 1;
                k = starts[depth] as usize;
                e = ends[depth] as usize;
                mode = CLOSING;
            }
            BARE => {
                depth -= 1;
                mode = SLASH;
            }
            UP => mode = behind(depth),
            _ => return Err(i), // The act is WRONG.
        }
    }
    if mode == AFTER {
        Ok(())
    } else {
        Err(page.len())
    }
}
