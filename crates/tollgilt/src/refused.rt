// Refused: a refusal in numbers, as every function of this crate gives it.
ghost use Rattle.std.specs.Prelude.{◌≡◌};
ghost use Rattle.reader.specs.Answers as Reading;
ghost use Rattle.tollgilt.specs.Refused.{refused, refused_with};
ghost use Rattle.writer.specs.Answers as Writing;

// The number, page and place of a refusal; 0 where the documents name no page or no place.
#[derive(Clone, Copy, PartialEq, Eq)]
pub struct Refused {
    pub number: u32,
    pub page: u32,
    pub place: u32,
}

impl Refused {
    // Refusal 1: the call is not well made, or asks for what is not there.
    pub fn one() -> Refused
        ensures { result ≡ refused_with 1 0 0 }
    {
        Refused {
            number: 1,
            page: 0,
            place: 0,
        }
    }
}

// What reading refuses.
impl From<reader::answer::Refusal> for Refused {
    ghost from_gives = { λ x r. r ≡ refused (Reading.numbers_of x) };

    fn from(refusal: reader::answer::Refusal) -> Refused {
        Refused {
            number: refusal.number(),
            page: refusal.page(),
            place: refusal.place(),
        }
    }
}

// What writing refuses; it names no page.
impl From<writer::answer::Refusal> for Refused {
    ghost from_gives = { λ x r. r ≡ refused (Writing.numbers_of x) };

    fn from(unwritten: writer::answer::Refusal) -> Refused {
        Refused {
            number: unwritten.number(),
            page: 0,
            place: unwritten.place(),
        }
    }
}
