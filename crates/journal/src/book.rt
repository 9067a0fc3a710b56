// The whole journal book, once its form is known: how many journals it has, which is the last, the steps of one of them, and in
// how many of them a word is.

ghost use Rattle.std.specs.Prelude.{◌≡◌, true, false, [], ◌<◌, length, get_or, MatchOption, MatchResult};
ghost use Rattle.words.specs.Words.{count};
ghost use Rattle.words.specs.Journals.{last_of};
ghost use Rattle.records.specs.JournalBook.{journal_form, first_wrong_record, journals_of};

use crate::form::{first_wrong_record, records};
use crate::steps::is_in;
use records::JOURNAL_BOOK;
use words::JOURNALS;

// The number of journals, which is that of the open records before the first that isn't open.
pub fn open_count(journals: &[u8; JOURNAL_BOOK]) -> usize
    ensures { result ≡ length (journals_of journals.now) }
{
    records(journals)
        .iter()
        .position(|r| r[0] != 1)
        .unwrap_or(JOURNALS)
}

// The number of the journal opened last, if there is one.
pub fn last_journal(journals: &[u8; JOURNAL_BOOK]) -> Option<usize>
    ensures { MatchOption result (length (journals_of journals.now) ≡ 0) (λ i. (i ≡ last_of (journals_of journals.now)) × (i < length (journals_of journals.now))) }
{
    open_count(journals).checked_sub(1)
}

// A lent journal book that has its form.
#[derive(Clone, Copy)]
pub struct JournalBook<'a> {
    pub bytes: &'a [u8; JOURNAL_BOOK],
    pub ghost form: { journal_form bytes.now ≡ true },
}

impl<'a> JournalBook<'a> {
    // The book that the bytes are, or their first wrong record.
    pub fn read(bytes: &'a [u8; JOURNAL_BOOK]) -> Result<JournalBook<'a>, usize>
        ensures { MatchResult result (λ book. (journal_form bytes.now ≡ true) × (book.bytes.now ≡ bytes.now)) (λ i. (journal_form bytes.now ≡ false) × (i ≡ first_wrong_record bytes.now)) }
    {
        match first_wrong_record(bytes) {
            Some(i) => Err(i),
            None => Ok(JournalBook { bytes }),
        }
    }

    // The steps of journal i, as a part of the book.
    pub fn journal_at(&self, i: usize) -> &'a [u8]
        requires { i < length (journals_of self.now.bytes.now) }
        ensures { result.now ≡ get_or (journals_of self.now.bytes.now) i [] }
    {
        let record = &records(self.bytes)[i];
        let end = 2 + usize::from(record[1]);
        &record[2..end]
    }

    // In how many journals the word is.
    // Kept: counted in the loop, since the proof of `filter(..).count()` over the journals' numbers didn't close.
    #[tactic(auto, using(crate::proofs::Journals::few))]
    pub fn count_in(&self, word: &[u8]) -> u8
        ensures { result ≡ count (journals_of self.now.bytes.now) word.now }
    {
        let mut n = 0;
        for i in 0..open_count(self.bytes) {
            if is_in(word, self.journal_at(i)) {
                n += 1;
            }
        }
        n
    }
}
