// Document 01 as definitions (specs/) and the theorems about them (proofs/), and of its numbers and causes those that code needs.
#![tactic(auto)]

ghost use Rattle.std.specs.Prelude.{◌≡◌};
ghost use Rattle.paper.specs.Causes.{cause_number};

// The bytes that a page has at most.
pub const PAGE: usize = 1400;

// Why a page is refused: its size, a byte that is not allowed, no well-formed markup, an element or attribute that is out of place, another edition,
// a value that breaks its field, something that is missing.
#[derive(Clone, Copy, PartialEq, Eq)]
pub enum Cause {
    Size,
    Byte,
    Malformed,
    OutOfPlace,
    Edition,
    Value,
    Incomplete,
}

impl Cause {
    // The number of the refusal, 2 to 8.
    pub fn number(self) -> u8
        ensures { result ≡ cause_number self }
    {
        match self {
            Cause::Size => 2,
            Cause::Byte => 3,
            Cause::Malformed => 4,
            Cause::OutOfPlace => 5,
            Cause::Edition => 6,
            Cause::Value => 7,
            Cause::Incomplete => 8,
        }
    }
}
