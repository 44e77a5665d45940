// What a collector keeps: room for nine full pages, each page at its number's fixed place, and the length of each.
ghost use Rattle.std.specs.Prelude.{◌≡◌};
ghost use Rattle.collector.specs.Keeping.{empty_collector, page_at, count_of};

use plan::Plan;

// A collector by value. The page of number n stands from (n - 1) * 1,400 on.
#[derive(Clone, Copy)]
pub struct Collector {
    // The pages.
    pub pages: [u8; Plan::PAGES],
    // The length of each page; 0 where it is not here.
    pub lens: [u16; 9],
    // How many pages there are, as they say; 0 where there is none yet.
    pub z: u8,
    // The number of the page that came first; 0 where there is none yet.
    pub first: u8,
}

// Where the page of a number is kept: from `start` on in the collector's pages, `len` bytes long.
#[derive(Clone, Copy, PartialEq, Eq)]
pub struct Slot {
    pub start: usize,
    pub len: usize,
}

impl Collector {
    // The most pages that a plan has.
    pub const PAGES: u8 = 9;
    // The bytes of a full page.
    pub const PAGE: usize = Plan::PAGE;

    // The collector without any page.
    pub fn empty() -> Collector
        ensures { result ≡ empty_collector }
    {
        Collector {
            pages: [0; Plan::PAGES],
            lens: [0; 9],
            z: 0,
            first: 0,
        }
    }
}

// The collector without any page, in place of this one.
pub fn clear(_c: Collector) -> Collector
    ensures { result ≡ empty_collector }
{
    Collector::empty()
}

// Where the page of a number is kept. None is, where the number is no page's, or the length no page's.
#[tactic(auto, unfolding(crate::specs::Keeping::page_at, crate::specs::Keeping::here))]
pub fn page_at(lens: [u16; 9], n: u8) -> Option<Slot>
    ensures { result ≡ page_at lens n }
{
    if n < 1 || n > Collector::PAGES {
        return None;
    }
    let i = n as usize - 1;
    let len = lens[i] as usize;
    if len < 1 || len > Collector::PAGE {
        return None;
    }
    Some(Slot {
        start: i * Collector::PAGE,
        len,
    })
}

// How many pages there are, as they say; none where that is no count of pages.
#[tactic(auto, unfolding(crate::specs::Keeping::count_of))]
pub fn count(z: u8) -> u8
    ensures { result ≡ count_of z }
{
    if z > Collector::PAGES {
        return 0;
    }
    z
}
