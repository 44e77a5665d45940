// The answer to a call that asks for a cell: what the cell shows, in numbers, or refusal 1 of document 01's table.
ghost use Rattle.std.specs.Prelude.{◌≡◌};
ghost use Rattle.cell.specs.Answers.{numbers_of, source_number};

// Which buffer the text of a cell is a part of.
#[derive(Clone, Copy, PartialEq, Eq)]
pub enum Source {
    // The plan's text: the row has a value of its own.
    Plan,
    // The catalogue's text: the row has no such value, and the catalogue has a text.
    Catalogue,
    // Neither has a text, and the cell is empty.
    Neither,
}

impl Source {
    // The number of a source: 1 the plan, 2 the catalogue, 0 neither.
    pub fn number(self) -> u32
        ensures { result ≡ source_number self }
    {
        match self {
            Source::Plan => 1,
            Source::Catalogue => 2,
            Source::Neither => 0,
        }
    }
}

// What a cell shows: the buffer that its text is a part of, where the text begins there and how many bytes it has (0 and 0 with neither), whether "..."
// follows, how many bytes of the whole text were left out, and whether 0 is printed.
#[derive(Clone, Copy, PartialEq, Eq)]
pub struct Shown {
    pub source: Source,
    pub at: usize,
    pub len: usize,
    pub more: bool,
    pub omitted: usize,
    pub zero: bool,
}

// There is no such cell: the row or the field does not exist, the row is no medication, the index is none of three, or the value asked for points outside
// the text.
#[derive(Clone, Copy, PartialEq, Eq)]
pub struct NoCell;

impl NoCell {
    // The number of the refusal. Its page and place are 0.
    pub fn number(self) -> u32
        ensures { result ≡ (numbers_of (Err self)).number }
    {
        1
    }
}
