// The calls that write the books. Each call's promise is one equation with a definition of `books`, and holds for every input.
#![tactic(auto)]

mod appending;
mod opening;
mod write;

ghost use Rattle.std.specs.Prelude.{◌≡◌};
ghost use Rattle.books.specs.Answers.{number_in};
ghost use Rattle.books.specs.Clear.{after, clear_call};
ghost use Rattle.books.specs.Open.{open_call};
ghost use Rattle.books.specs.Append.{append_call};
ghost use Rattle.books.specs.Rebuild.{rebuild_call};

use appending::append_at;
use books::{Refused, sized};
use checking::size::right_sizes;
use journal::JournalBook;
use opening::opened;
use write::{write_books, write_rows};

// Kept: the two books stay two parameters, since each exported call lends them as two slices (`selquorin_c`) and each contract names both.

// Clears both books: every byte of them becomes zero.
#[tactic(auto, using(books::proofs::ClearCases::clear_size, books::proofs::ClearCases::clear_done), unfolding(books::specs::Clear::zeros))]
pub fn clear(journals: &mut [u8], rows: &mut [u8]) -> Result<(), Refused>
    ensures { after (number_in result) journals.new rows.new ≡ clear_call journals.old rows.old }
{
    right_sizes(journals, rows)?;
    journals.fill(0);
    rows.fill(0);
    Ok(())
}

// Kept: `open` and `append_at` are alike but for the book that is made: a function for what they share would be as long as either.

// Opens the next journal, an empty one, behind the others.
pub fn open(journals: &mut [u8], rows: &mut [u8]) -> Result<(), Refused>
    ensures { after (number_in result) journals.new rows.new ≡ open_call journals.old rows.old }
{
    let wider = opened(journals, rows)?;
    write_books(&JournalBook { bytes: &wider }, journals, rows)
}

// Appends a step to the journal opened last.
#[tactic(auto, using(books::proofs::AppendCases::append_size, books::proofs::AppendCases::append_last))]
pub fn append(journals: &mut [u8], rows: &mut [u8], step: u8) -> Result<(), Refused>
    ensures { after (number_in result) journals.new rows.new ≡ append_call journals.old rows.old step }
{
    let (book, _) = right_sizes(journals, rows)?;
    // With no journal open, journal 0 is named, which isn't open.
    let last = journal::last_journal(book).unwrap_or(0);
    append_at(journals, rows, last, step)
}

// Draws the row book anew from the journal book alone, whatever the row book held.
#[tactic(auto, using(books::proofs::BookSizes::sizes_right, books::proofs::BookSizes::journals_wrong, books::proofs::BookSizes::rows_wrong, books::proofs::RebuildCases::rebuild_size, books::proofs::RebuildCases::rebuild_formless, books::proofs::RebuildCases::rebuild_drawn))]
pub fn rebuild(journals: &[u8], rows: &mut [u8]) -> Result<(), Refused>
    ensures { after (number_in result) journals.now rows.new ≡ rebuild_call journals.now rows.old }
{
    let journals = sized(journals)?;
    let rows = rows.as_mut_array().ok_or(Refused::WrongSize)?;
    let Ok(book) = JournalBook::read(journals) else {
        return Err(Refused::Damaged);
    };
    write_rows(&book, rows)
}
