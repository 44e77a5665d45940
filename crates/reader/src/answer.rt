// The refusals of a call that reads pages: document 01's table, named for what happened.
ghost use Rattle.std.specs.Prelude.{◌≡◌};
ghost use Rattle.paper.specs.Causes.{cause_number};
ghost use Rattle.paper.specs.Reading.{numbers};
ghost use Rattle.reader.specs.Answers.{numbers_of};

use paper::Cause;

// Why the pages of a call are no plan. A page is counted from 1 in the order handed in; a place is the offset of a byte in its page.
#[derive(Clone, Copy, PartialEq, Eq)]
pub enum Refusal {
    // The call is not well made: its page count, a page outside the buffer, or too little room.
    NoRoom,
    // The page is empty or has more than 1,400 bytes.
    PageSize(u32),
    // A byte that is not allowed.
    ByteRefused { page: u32, place: u32 },
    // The page is malformed.
    Malformed { page: u32, place: u32 },
    // An element unknown, misplaced or too many; an attribute unknown or twice.
    OutOfPlace { page: u32, place: u32 },
    // An edition other than 027, or none.
    OtherEdition { page: u32, place: u32 },
    // A value that breaks its field, or a above z.
    BrokenValue { page: u32, place: u32 },
    // An excluded pair, a missing field or element, a without z, z without a.
    Incomplete { page: u32, place: u32 },
    // Head or z differs from the first page.
    OtherHead(u32),
    // A page number that an earlier page has.
    NumberTwice(u32),
    // A page number that is missing: the lowest.
    NumberMissing(u32),
    // More than 256 rows.
    TooManyRows,
}

impl Refusal {
    // The refusal of a page for that cause. That of a page's size has no place.
    pub fn of_page(cause: Cause, page: u32, place: u32) -> Refusal
        requires { cause_number cause ≡ 2 → place ≡ 0 }
        ensures { numbers_of result ≡ numbers (cause_number cause) page place }
    {
        match cause {
            Cause::Size => Refusal::PageSize(page),
            Cause::Byte => Refusal::ByteRefused { page, place },
            Cause::Malformed => Refusal::Malformed { page, place },
            Cause::OutOfPlace => Refusal::OutOfPlace { page, place },
            Cause::Edition => Refusal::OtherEdition { page, place },
            Cause::Value => Refusal::BrokenValue { page, place },
            Cause::Incomplete => Refusal::Incomplete { page, place },
        }
    }

    // The number of the refusal, 1 to 12.
    pub fn number(self) -> u32
        ensures { result ≡ (numbers_of self).number }
    {
        match self {
            Refusal::NoRoom => 1,
            Refusal::PageSize(_) => 2,
            Refusal::ByteRefused { .. } => 3,
            Refusal::Malformed { .. } => 4,
            Refusal::OutOfPlace { .. } => 5,
            Refusal::OtherEdition { .. } => 6,
            Refusal::BrokenValue { .. } => 7,
            Refusal::Incomplete { .. } => 8,
            Refusal::OtherHead(_) => 9,
            Refusal::NumberTwice(_) => 10,
            Refusal::NumberMissing(_) => 11,
            Refusal::TooManyRows => 12,
        }
    }

    // The page of the refusal; at a missing number that number, and 0 where the table has 0.
    pub fn page(self) -> u32
        ensures { result ≡ (numbers_of self).page }
    {
        match self {
            Refusal::NoRoom | Refusal::TooManyRows => 0,
            Refusal::PageSize(page)
            | Refusal::ByteRefused { page, .. }
            | Refusal::Malformed { page, .. }
            | Refusal::OutOfPlace { page, .. }
            | Refusal::OtherEdition { page, .. }
            | Refusal::BrokenValue { page, .. }
            | Refusal::Incomplete { page, .. }
            | Refusal::OtherHead(page)
            | Refusal::NumberTwice(page) => page,
            Refusal::NumberMissing(number) => number,
        }
    }

    // The place of the refusal; 0 where the table has 0.
    pub fn place(self) -> u32
        ensures { result ≡ (numbers_of self).place }
    {
        match self {
            Refusal::ByteRefused { place, .. }
            | Refusal::Malformed { place, .. }
            | Refusal::OutOfPlace { place, .. }
            | Refusal::OtherEdition { place, .. }
            | Refusal::BrokenValue { place, .. }
            | Refusal::Incomplete { place, .. } => place,
            _ => 0,
        }
    }
}
