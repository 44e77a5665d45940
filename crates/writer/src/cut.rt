// The cut: how many rows stand on each page, from the sizes of the rows alone.
ghost use Rattle.std.specs.Prelude.{◌≡◌, ◌≤◌, ◌<◌, take};
ghost use Rattle.paper.specs.Sizes.{page_bytes};
ghost use Rattle.writer.specs.Cutting.{size_in, opens, cut_of, Tells};

use plan::Plan;

// The pages of a cut: how many there are, and for each how many rows are placed where it ends.
#[derive(Clone, Copy, PartialEq, Eq)]
pub struct PageEnds {
    pub pages: usize,
    pub ends: [usize; 9],
}

// What the row of that number adds to a page.
pub fn size_in(m: u32) -> usize
    ensures { (result ≡ size_in m) × (result < 4294967296) }
{
    (m / 2) as usize
}

// The bytes that a page has before its first row, whose number is m: a page without rows has `base`, and an S that no heading opens has `<S>` and `</S>`.
fn opened(base: usize, m: u32) -> usize
    requires { base ≤ page_bytes }
    ensures { (result ≡ opens base m) × (result ≤ 1407) }
{
    if m % 2 == 1 {
        return base;
    }
    base + 7
}

// Cuts the first n rows: each page takes as many as fit into 1,400 bytes. The number of a row is twice what it adds to a page, and one more for a heading.
// Where nine pages do not take all rows, the first row that has no place is told, counted from 1.
pub fn cut_rows(base: usize, measures: [u32; Plan::ROWS], n: usize) -> Result<PageEnds, usize>
    requires { (base ≤ page_bytes) × (n ≤ 256) }
    ensures { Tells result (cut_of base (take n measures)) }
{
    let mut ends = [0usize; 9];
    let mut full = 0;
    let mut used = opened(base, measures[0]);
    for i in 0..n {
        let size = size_in(measures[i]);
        let more = used + size;
        if more <= Plan::PAGE {
            used = more;
        } else {
            if full == 8 {
                return Err(i + 1); // Nine pages are begun.
            }
            let first = opened(base, measures[i]) + size;
            if first > Plan::PAGE {
                return Err(i + 1); // No page is long enough.
            }
            ends[full] = i;
            full += 1;
            used = first;
        }
    }
    ends[full] = n;
    Ok(PageEnds {
        pages: full + 1,
        ends,
    })
}
