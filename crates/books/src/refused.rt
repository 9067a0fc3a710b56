// What a call is refused with: one name for each number of document 01 but 0, which is said by an `Ok`.

ghost use Rattle.std.specs.Prelude.{◌≡◌};
ghost use Rattle.books.specs.Answers.{number_of, number_in};

#[derive(Clone, Copy, Debug, PartialEq, Eq)]
pub enum Refused {
    // Something lent has a size that it can't have.
    WrongSize = 1,
    // The books are damaged.
    Damaged = 2,
    // A step above 15.
    WrongStep = 3,
    // Append with no journal open.
    NoJournal = 4,
    // The last journal has 200 steps.
    JournalFull = 5,
    // A 1,001st row would be needed.
    RowsFull = 6,
    // 16 journals are open already.
    JournalsFull = 7,
    // Quorum below 1 or above the number of journals.
    WrongQuorum = 8,
    // List length above 15.
    WrongLength = 9,
    // A word record without its form, or whose word exceeds the list length.
    WrongWord = 10,
    // The program: a broken journal entry.
    BrokenEntry = 11,
    // The program: the ask file has neither 0 nor 2 bytes.
    WrongAsk = 12,
    // No row has this number: it is above 999.
    WrongRow = 13,
}

impl From<Refused> for u8 {
    ghost from_gives = { λ refused number. number ≡ number_of refused };

    fn from(refused: Refused) -> u8 {
        refused as u8
    }
}

// The number of document 01 for an answer: 0 where the call is done, whatever else it answers.
pub fn number_in<T>(answer: &Result<T, Refused>) -> u8
    ensures { result ≡ number_in answer.now }
{
    match answer {
        Ok(_) => 0,
        Err(refused) => u8::from(*refused),
    }
}
