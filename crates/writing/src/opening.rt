// Opening a journal: deciding, which only reads, and the journal book that it would leave.

ghost use Rattle.std.specs.Prelude.{◌≡◌, IfOk};
ghost use Rattle.words.specs.Journals.{opened};
ghost use Rattle.records.specs.JournalBook.{journals_of, journal_book};
ghost use Rattle.books.specs.Answers.{number_in};
ghost use Rattle.books.specs.Numbers.{first};
ghost use Rattle.books.specs.Open.{open_refusals};

use books::Refused;
use checking::Sound;
use records::JOURNAL_BOOK;
use words::JOURNALS;

// The journal book with the next journal open, or what opening is refused with.
#[tactic(auto, using(books::proofs::OpenCases::open_seen, books::proofs::OpenCases::open_full, books::proofs::OpenCases::open_free))]
pub(crate) fn opened(journals: &[u8], rows: &[u8]) -> Result<[u8; JOURNAL_BOOK], Refused>
    ensures number { number_in result ≡ first (open_refusals journals.now rows.now) }
    ensures book { IfOk result (λ book. book ≡ journal_book (opened (journals_of journals.now))) }
{
    let book = Sound::read(journals, rows)?.journals;
    if JOURNALS <= journal::open_count(book.bytes) {
        return Err(Refused::JournalsFull);
    }
    Ok(book.with_journal())
}
