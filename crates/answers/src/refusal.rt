// The refusals of document 01, a case for each number.
ghost use Rattle.std.specs.Prelude.{◌≡◌};
ghost use Rattle.answers.specs.Refusals.{number_of, place_of};

use std::fmt;

// A refusal. The place, where it is not 0, is in bytes from the file's start.
#[derive(Clone, Copy, Debug, PartialEq, Eq)]
pub enum Refusal {
    // Bytes end where a field is still due, or inside it: where the field starts, in bytes.
    Short(usize),
    // The tag is not the one due: the field's first byte.
    Tag(usize),
    // The length is not one that the field may have: the field's first byte.
    Length(usize),
    // n is not in 1 to 256, or the root not in 1 to n.
    Bounds,
    // A link's ends are not in 1 to n or not ascending, or its cost is 0: the record's first byte.
    Ends(usize),
    // A link is not after the one before: the record's first byte.
    Order(usize),
    // A group bit is above n: the field's first byte.
    Bit(usize),
    // Bytes follow the last field: the first of them.
    After(usize),
    // The lent area has no room for the file.
    Room,
    // The count of rounds is above the largest.
    Count,
    // The table is not quiet after the largest count of rounds.
    Unsettled,
    // The number asked about is no node.
    Node,
}

impl Refusal {
    // The number of the refusal, 1 to 12.
    pub fn number(self) -> u8
        ensures { result ≡ number_of self }
    {
        match self {
            Refusal::Short(_) => 1,
            Refusal::Tag(_) => 2,
            Refusal::Length(_) => 3,
            Refusal::Bounds => 4,
            Refusal::Ends(_) => 5,
            Refusal::Order(_) => 6,
            Refusal::Bit(_) => 7,
            Refusal::After(_) => 8,
            Refusal::Room => 9,
            Refusal::Count => 10,
            Refusal::Unsettled => 11,
            Refusal::Node => 12,
        }
    }

    // The place of the refusal, in bytes.
    pub fn place(self) -> usize
        ensures { result ≡ place_of self }
    {
        match self {
            Refusal::Length(place) => place,
            Refusal::Short(place)
            | Refusal::Tag(place)
            | Refusal::Ends(place)
            | Refusal::Order(place)
            | Refusal::Bit(place)
            | Refusal::After(place) => place,
            Refusal::Node => 0,
            Refusal::Bounds | Refusal::Room | Refusal::Count | Refusal::Unsettled => 0,
        }
    }
}

impl fmt::Display for Refusal {
    ghost use Rattle.std.specs.Prelude.{Some};
    ghost use Rattle.answers.specs.Refusals.{refusal_text};

    ghost output = { λ refusal. Some (refusal_text refusal) };

    fn fmt<W: fmt::Write>(&self, f: &mut fmt::Formatter<W>) -> fmt::Result {
        let (number, place) = (self.number(), self.place());
        write!(f, "refused {number} at {place}")
    }
}
