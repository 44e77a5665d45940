// Answers: what building an index and asking it answer. Refusals are document 02's: 1, and 20, "index doesn't match"; their page and place are 0.
ghost use Rattle.std.specs.Prelude.{◌≡◌};
ghost use Rattle.index.specs.Answers.{refusal_number, number_of};

// Why a call that builds an index or asks it is refused.
#[derive(Clone, Copy, PartialEq, Eq)]
pub enum Refusal {
    // The call is not well made: more rows than lent or than a plan has, more pairs than lent, or too little room.
    NoRoom,
    // The pairs are not the index of the rows.
    OtherIndex,
}

impl Refusal {
    // The number of the refusal.
    pub fn number(self) -> u32
        ensures { result ≡ refusal_number self }
    {
        match self {
            Refusal::NoRoom => 1,
            Refusal::OtherIndex => 20,
        }
    }
}

// The rows that hold a package number: the first of them, and how many they are.
#[derive(Clone, Copy, PartialEq, Eq)]
pub struct Held {
    pub first: u32,
    pub count: u32,
}

// What is answered about the k-th row of a package number.
#[derive(Clone, Copy, PartialEq, Eq)]
pub enum Nth {
    // The number is not on the plan.
    Absent,
    // The number is on the plan, but not in so many rows, or k is 0.
    None,
    // The row.
    Row(u32),
}

// The number of the refusal in an answer; 0 where nothing is refused.
pub fn number_of<A>(answer: &Result<A, Refusal>) -> u32
    ensures { result ≡ number_of answer.now }
{
    match answer {
        Ok(_) => 0,
        Err(refusal) => refusal.number(),
    }
}
