// The numbers that are missing: a mask with bit n for page number n, how many they are, and the lowest.
ghost use Rattle.std.specs.Prelude.{◌≡◌, length};
ghost use Rattle.paper.specs.Collecting.{mask_of};
ghost use Rattle.reader.specs.Pages.{picked, first_in};
ghost use Rattle.collector.specs.Keeping.{here, missing};

use crate::store::{Collector, page_at};
use reader::pages::{missing_mask, with_number};

// The mask of the numbers whose pages are here.
fn here_mask(lens: [u16; 9]) -> u16
    ensures { result ≡ mask_of (picked (here lens) 1 9) }
{
    let mut mask = 0u16;
    for k in 0..Collector::PAGES {
        if page_at(lens, k + 1).is_some() {
            mask = with_number(mask, k + 1);
        }
    }
    mask
}

// The mask of the missing numbers; empty where there is no page.
#[tactic(auto, using(crate::proofs::MaskLaws::missing_mask_lem))]
pub fn missing_numbers(c: Collector) -> u16
    ensures { result ≡ mask_of (missing c) }
{
    missing_mask(here_mask(c.lens), c.z)
}

// How many numbers are missing: the ones of the mask.
#[tactic(auto, using(crate::proofs::MaskLaws::numbers_missing))]
pub fn missing_count(c: Collector) -> u32
    ensures { result ≡ length (missing c) }
{
    reader::pages::missing_count(missing_numbers(c))
}

// The lowest missing number, if one is missing: the trailing zeros of the mask.
#[tactic(auto, using(crate::proofs::MaskLaws::numbers_missing))]
pub fn lowest_missing(c: Collector) -> Option<u32>
    ensures { result ≡ first_in (missing c) }
{
    reader::pages::lowest_missing(missing_numbers(c))
}
