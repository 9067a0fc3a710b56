// The form of bytes that hold steps, of a journal record, and of the journal book.

ghost use Rattle.std.specs.Prelude.{◌≡◌, ◌<◌, length, MatchOption, true, false};
ghost use Rattle.records.specs.StepBytes.{steps_form};
ghost use Rattle.records.specs.JournalBook.{journal_form, record_form, wrong_record, first_wrong_record};
ghost use Rattle.journal.specs.Records.{records_of};

use lent_bytes::all_below;
use records::{JOURNAL_BOOK, JOURNAL_RECORD};
use words::{LONGEST_JOURNAL, STEP_CODES};

// Whether bytes are a length, as many steps, and zeros behind.
pub fn steps_form(b: &[u8], most: usize) -> bool
    requires { most < length b.now }
    ensures { result ≡ steps_form most b.now }
{
    let n = usize::from(b[0]);
    n <= most && all_below(&b[1..1 + n], STEP_CODES) && all_below(&b[1 + n..], 1)
}

// Whether a record is open and holds steps, or is all zero.
fn record_form(r: &[u8; JOURNAL_RECORD]) -> bool
    ensures { result ≡ record_form r.now }
{
    if r[0] == 1 {
        steps_form(&r[1..], LONGEST_JOURNAL)
    } else {
        all_below(r, 1)
    }
}

// Whether a record's form is wrong, or it is open after one that isn't.
fn wrong_record(open_before: bool, r: &[u8; JOURNAL_RECORD]) -> bool
    ensures { result ≡ wrong_record open_before r.now }
{
    !record_form(r) || (r[0] == 1 && !open_before)
}

// The records of a book, one behind the other.
pub(crate) fn records(book: &[u8; JOURNAL_BOOK]) -> &[[u8; JOURNAL_RECORD]]
    ensures { result.now ≡ records_of book.now }
{
    book.as_chunks::<JOURNAL_RECORD>().0
}

// The first record that is wrong, if one is.
pub(crate) fn first_wrong_record(book: &[u8; JOURNAL_BOOK]) -> Option<usize>
    ensures { MatchOption result (journal_form book.now ≡ true) (λ i. (journal_form book.now ≡ false) × (i ≡ first_wrong_record book.now)) }
{
    let mut open_before = true;
    for (i, r) in records(book).iter().enumerate() {
        if wrong_record(open_before, r) {
            return Some(i);
        }
        open_before = r[0] == 1;
    }
    None
}
