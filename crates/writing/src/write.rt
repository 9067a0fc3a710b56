// Writing the row book alone, and both books, which no other file of this crate does but for clearing them.

ghost use Rattle.std.specs.Prelude.{◌≡◌, true, [], ◌∷◌};
ghost use Rattle.records.specs.JournalBook.{journals_of};
ghost use Rattle.records.specs.RowBook.{row_book};
ghost use Rattle.records.specs.Sound.{right_sizes};
ghost use Rattle.books.specs.Answers.{number_in};
ghost use Rattle.books.specs.Numbers.{first, unless};
ghost use Rattle.books.specs.Clear.{after};
ghost use Rattle.books.specs.Write.{rows_refusal, write_call};

use books::Refused;
use journal::JournalBook;
use records::ROW_BOOK;

// Writes the picture of a journal book into a row book, or leaves that where the picture doesn't fit.
#[tactic(auto, using(picture::proofs::Drawn::found_many, picture::proofs::Drawn::found_few, picture::proofs::Drawn::drawn_few, picture::proofs::Drawn::drawn_many, books::proofs::WriteCases::rows_full_is, books::proofs::WriteCases::rows_fit))]
pub(crate) fn write_rows(
    journals: &JournalBook<'_>,
    rows: &mut [u8; ROW_BOOK],
) -> Result<(), Refused>
    ensures number { number_in result ≡ first (rows_refusal (journals_of journals.now.bytes.now) ∷ []) }
    ensures rows_after { rows.new ≡ unless (number_in result) (row_book (journals_of journals.now.bytes.now)) rows.old }
{
    picture::draw(journals, rows).ok_or(Refused::RowsFull)?;
    Ok(())
}

// Writes a new journal book and its picture, or leaves both books where the picture doesn't fit.
#[tactic(auto, using(books::proofs::BookSizes::both_sized))]
pub(crate) fn write_books(
    made: &JournalBook<'_>,
    journals: &mut [u8],
    rows: &mut [u8],
) -> Result<(), Refused>
    requires { right_sizes journals.old rows.old ≡ true }
    ensures { after (number_in result) journals.new rows.new ≡ write_call (journals_of made.now.bytes.now) journals.old rows.old }
{
    write_rows(made, rows.as_mut_array().unwrap())?;
    let bytes = made.bytes;
    journals.copy_from_slice(bytes);
    Ok(())
}
