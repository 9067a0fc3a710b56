// The journal book that a call would leave: with the next journal open, or with a step more at a journal's end.

ghost use Rattle.std.specs.Prelude.{◌≡◌, ◌<◌, length};
ghost use Rattle.words.specs.Limits.{longest_journal, most_journals};
ghost use Rattle.words.specs.Journals.{opened, appended_at, steps_at};
ghost use Rattle.records.specs.JournalBook.{journals_of, journal_book};

use crate::book::{JournalBook, open_count};
use records::{JOURNAL_BOOK, JOURNAL_RECORD};

impl JournalBook<'_> {
    // The journal book with the next journal open, for which there is room.
    pub fn with_journal(&self) -> [u8; JOURNAL_BOOK]
        requires { length (journals_of self.now.bytes.now) < most_journals }
        ensures { result ≡ journal_book (opened (journals_of self.now.bytes.now)) }
    {
        let mut wider = *self.bytes;
        wider[JOURNAL_RECORD * open_count(self.bytes)] = 1;
        wider
    }

    // The journal book with a step more at the end of journal i, which has room for it.
    #[tactic(auto, using(crate::proofs::Journals::few))]
    pub fn with_step(&self, i: usize, step: u8) -> [u8; JOURNAL_BOOK]
        requires journal { i < length (journals_of self.now.bytes.now) }
        requires room { steps_at i (journals_of self.now.bytes.now) < longest_journal }
        ensures { result ≡ journal_book (appended_at i step (journals_of self.now.bytes.now)) }
    {
        let at = JOURNAL_RECORD * i;
        let n = self.journal_at(i).len();
        let mut longer = *self.bytes;
        longer[at + (2 + n)] = step;
        longer[at + 1] = n as u8 + 1;
        longer
    }
}
