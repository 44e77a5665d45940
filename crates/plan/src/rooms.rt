// Rooms: whether what the caller lends is enough. Less is refusal 1 of document 01, whatever the plan needs.
ghost use Rattle.std.specs.Prelude.{◌≡◌, leb};
ghost use Rattle.paper.specs.Calls.{row_room, text_room, page_room, listing_room};
ghost use Rattle.plan.specs.Numbers.{rows_lent};

use crate::Plan;

// Whether so many numbers are room for the rows of any plan.
pub fn rows_fit(numbers: usize) -> bool
    ensures { result ≡ leb row_room (rows_lent numbers) }
{
    Plan::NUMBERS <= numbers
}

// Whether so many bytes are room for the text of any plan.
pub fn text_fits(bytes: usize) -> bool
    ensures { result ≡ leb text_room bytes }
{
    Plan::TEXT <= bytes
}

// Whether so many bytes are room for the fresh pages of any plan.
pub fn pages_fit(bytes: usize) -> bool
    ensures { result ≡ leb page_room bytes }
{
    Plan::PAGES <= bytes
}

// Whether so many bytes are room for the listing of any plan.
pub fn listing_fits(bytes: usize) -> bool
    ensures { result ≡ leb listing_room bytes }
{
    Plan::LISTING <= bytes
}
