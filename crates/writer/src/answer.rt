// The refusals of a call that writes pages: three of document 01's table, named for what happened.
ghost use Rattle.std.specs.Prelude.{◌≡◌};
ghost use Rattle.writer.specs.Answers.{numbers_of};

// Why no pages are written. A row is counted from 1; 0 stands for the head.
#[derive(Clone, Copy, PartialEq, Eq)]
pub enum Refusal {
    // The call is not well made: too little room, or a row count above 256 or above the rows lent.
    NoRoom,
    // The plan breaks a rule, holds a value in a form that reading never gives, or points outside its text: at the head, or first at this row.
    Unsound(u32),
    // No cut into at most nine pages exists: the head alone is too long, or rows 1 up to this one are the first without a cut.
    TooLong(u32),
}

impl Refusal {
    // The number of the refusal: 1, 13 or 14.
    pub fn number(self) -> u32
        ensures { result ≡ (numbers_of self).number }
    {
        match self {
            Refusal::NoRoom => 1,
            Refusal::Unsound(_) => 13,
            Refusal::TooLong(_) => 14,
        }
    }

    // The place of the refusal: the row, or 0.
    pub fn place(self) -> u32
        ensures { result ≡ (numbers_of self).place }
    {
        match self {
            Refusal::NoRoom => 0,
            Refusal::Unsound(row) | Refusal::TooLong(row) => row,
        }
    }
}
