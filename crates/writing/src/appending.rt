// Appending a step at a journal's end: deciding, which only reads, with the journal book that it would leave, and the call at journal i.

ghost use Rattle.std.specs.Prelude.{◌≡◌, IfOk};
ghost use Rattle.words.specs.Journals.{appended_at};
ghost use Rattle.records.specs.JournalBook.{journals_of, journal_book};
ghost use Rattle.books.specs.Answers.{number_in};
ghost use Rattle.books.specs.Numbers.{first};
ghost use Rattle.books.specs.Clear.{after};
ghost use Rattle.books.specs.Append.{early_refusals, append_at_call};

use crate::write::write_books;
use books::Refused;
use checking::Sound;
use journal::JournalBook;
use records::JOURNAL_BOOK;
use words::{LONGEST_JOURNAL, STEP_CODES};

// The journal book with the step at journal i, or what appending is refused with before the live states after it are counted.
#[tactic(auto, using(books::proofs::AppendCases::append_seen, books::proofs::AppendCases::append_step, books::proofs::AppendCases::append_none, books::proofs::AppendCases::append_long, books::proofs::AppendCases::append_free))]
fn appended(journals: &[u8], rows: &[u8], i: usize, step: u8) -> Result<[u8; JOURNAL_BOOK], Refused>
    ensures number { number_in result ≡ first (early_refusals journals.now rows.now i step) }
    ensures book { IfOk result (λ book. book ≡ journal_book (appended_at i step (journals_of journals.now))) }
{
    let book = Sound::read(journals, rows)?.journals;
    if STEP_CODES <= step {
        return Err(Refused::WrongStep);
    }
    if journal::open_count(book.bytes) <= i {
        return Err(Refused::NoJournal);
    }
    if LONGEST_JOURNAL <= book.journal_at(i).len() {
        return Err(Refused::JournalFull);
    }
    Ok(book.with_step(i, step))
}

// Appends a step to journal i.
pub(crate) fn append_at(
    journals: &mut [u8],
    rows: &mut [u8],
    i: usize,
    step: u8,
) -> Result<(), Refused>
    ensures { after (number_in result) journals.new rows.new ≡ append_at_call journals.old rows.old i step }
{
    let longer = appended(journals, rows, i, step)?;
    write_books(&JournalBook { bytes: &longer }, journals, rows)
}
