// Where the books are wrong, as the check tells it.

ghost use Rattle.std.specs.Prelude.{◌≡◌};
ghost use Rattle.books.specs.Answers.{number_of, fault_at, refused_by};
ghost use Rattle.books.specs.Check.{checked};

use crate::refused::Refused;

// Kept: a type beside the spot of `rows`, since a fault is what a call answers, and names row 1,000 too; a spot lies in the book.
#[derive(Clone, Copy, Debug, PartialEq, Eq)]
pub enum Fault {
    // Not both books have their sizes.
    WrongSizes,
    // The first wrong record of the journal book.
    Journal(usize),
    // The first row of the row book that differs from the picture, and the first byte in it that does. Journals with too many live
    // states have no picture: the record behind the last row is named then, at byte 0.
    Row(usize, usize),
}

impl Fault {
    // The book, the record in it and the byte in that; zeros where the sizes are wrong.
    pub fn place(self) -> (u8, usize, usize)
        ensures { checked (number_of (refused_by self)) result.0 result.1 result.2 ≡ fault_at self }
    {
        match self {
            Fault::WrongSizes => (0, 0, 0),
            Fault::Journal(record) => (1, record, 0),
            Fault::Row(row, byte) => (2, row, byte),
        }
    }
}

impl From<Fault> for Refused {
    ghost from_gives = { λ fault refused. refused ≡ refused_by fault };

    fn from(fault: Fault) -> Refused {
        match fault {
            Fault::WrongSizes => Refused::WrongSize,
            Fault::Journal(_) | Fault::Row(_, _) => Refused::Damaged,
        }
    }
}
