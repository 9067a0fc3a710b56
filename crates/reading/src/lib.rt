// The calls that read one book alone. Each call's promise is one equation with a definition of `books`, and holds for every input.
#![tactic(auto)]

ghost use Rattle.std.specs.Prelude.{◌≡◌, [], MatchResult};
ghost use Rattle.books.specs.Answers.{number_in, counted_in, open_journals_in};
ghost use Rattle.books.specs.TableCount.{table_count_call};
ghost use Rattle.books.specs.JournalCount.{journal_count_call};
ghost use Rattle.books.specs.RowRecord.{row_record_call, row_record_number_call};
ghost use Rattle.books.specs.OpenJournals.{open_journals_call};

use books::{Refused, sized};
use journal::JournalBook;
use records::{LONGEST_WORD, ROW_BOOK, ROW_RECORD, ROWS, WORD_RECORD};
use rows::{Damaged, count_at, walk_to};
use words::STEP_CODES;

// Counts a word by the row book alone: walks from row 0 along the word's steps, and answers the last row's count.
#[tactic(auto, using(books::proofs::TableCountCases::count_size, books::proofs::TableCountCases::count_step, books::proofs::TableCountCases::count_row, books::proofs::TableCountCases::count_none, books::proofs::TableCountCases::count_damage))]
pub fn table_count(rows: &[u8], word: &[u8]) -> Result<u8, Refused>
    ensures { counted_in result ≡ table_count_call rows.now word.now }
{
    let book = sized(rows)?;
    if !lent_bytes::all_below(word, STEP_CODES) {
        return Err(Refused::WrongStep);
    }
    match walk_to(book, word) {
        Ok(Some(row)) => Ok(count_at(book, row)),
        Ok(None) => Ok(0),
        Err(Damaged) => Err(Refused::Damaged),
    }
}

// Counts a word by the journal book alone: in how many journals the word of a word record is.
#[tactic(auto, using(books::proofs::JournalCountCases::journals_size, books::proofs::JournalCountCases::record_size, books::proofs::JournalCountCases::word_wrong, books::proofs::JournalCountCases::book_wrong, books::proofs::JournalCountCases::word_counted, books::proofs::JournalCountCases::word_part))]
pub fn journal_count(journals: &[u8], word_record: &[u8]) -> Result<u8, Refused>
    ensures { counted_in result ≡ journal_count_call journals.now word_record.now }
{
    let book = sized(journals)?;
    let word: &[u8; WORD_RECORD] = sized(word_record)?;
    if !journal::steps_form(word, LONGEST_WORD) {
        return Err(Refused::WrongWord);
    }
    let book = JournalBook::read(book).or(Err(Refused::Damaged))?;
    let end = 1 + usize::from(word[0]);
    Ok(book.count_in(&word[1..end]))
}

// How many journals are open, by the journal book alone.
#[tactic(auto, using(books::proofs::OpenJournalsCases::open_size, books::proofs::OpenJournalsCases::open_wrong, books::proofs::OpenJournalsCases::open_known))]
pub fn open_journals(journals: &[u8]) -> Result<usize, Refused>
    ensures { open_journals_in result ≡ open_journals_call journals.now }
{
    let book = JournalBook::read(sized(journals)?).or(Err(Refused::Damaged))?;
    Ok(journal::open_count(book.bytes))
}

// The 64 bytes of a row, handed back where they stand in the lent book; none of them where the row's number is refused.
pub fn row_record(rows: &[u8], row: usize) -> &[u8]
    ensures { result.now ≡ row_record_call rows.now row }
{
    match read_row_record(rows, row) {
        Ok(record) => record,
        Err(_) => &rows[..0],
    }
}

// The same bytes as an array, or what the row record is refused with.
#[tactic(auto, unfolding(books::specs::RowRecord::row_record_call, books::specs::RowRecord::row_record_number_call))]
pub fn read_row_record(rows: &[u8], row: usize) -> Result<&[u8; ROW_RECORD], Refused>
    ensures number { number_in result ≡ row_record_number_call rows.now row }
    ensures bytes { MatchResult result (λ r. r.now ≡ row_record_call rows.now row) (λ _. row_record_call rows.now row ≡ []) }
{
    row_record_number(rows, row)?;
    let start = ROW_RECORD * row;
    Ok(rows[start..start + ROW_RECORD].try_into().unwrap())
}

// Whether a row record is refused, and with what: for a caller that finds the bytes itself.
#[tactic(auto, unfolding(books::specs::RowRecord::row_record_number_call))]
pub fn row_record_number(rows: &[u8], row: usize) -> Result<(), Refused>
    ensures { number_in result ≡ row_record_number_call rows.now row }
{
    sized::<ROW_BOOK>(rows)?;
    if ROWS <= row {
        return Err(Refused::WrongRow);
    }
    Ok(())
}
