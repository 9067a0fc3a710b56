// What is seen of both books in one look: where they are wrong, or the journal book and how many live rows there are.

ghost use Rattle.std.specs.Prelude.{◌≡◌, length, IfOk};
ghost use Rattle.words.specs.Picture.{picture};
ghost use Rattle.records.specs.JournalBook.{journals_of};
ghost use Rattle.books.specs.Answers.{checked_in};
ghost use Rattle.books.specs.Check.{check_rows, check_call};

use crate::size::right_sizes;
use books::Fault;
use journal::JournalBook;
use records::{ROW_BOOK, ROWS};
use rows::first_difference;

// What is seen of a row book beside its journals: the picture is drawn once, for both answers.
#[tactic(auto, using(picture::proofs::Drawn::found_many, picture::proofs::Drawn::found_few, books::proofs::CheckCases::rows_many))]
fn see_rows(journals: &JournalBook<'_>, rows: &[u8; ROW_BOOK]) -> Result<usize, Fault>
    ensures says { checked_in result ≡ check_rows (journals_of journals.now.bytes.now) rows.now }
    ensures live { IfOk result (λ live. live ≡ length (picture (journals_of journals.now.bytes.now))) }
{
    let mut drawn = [0; ROW_BOOK];
    // The record behind the last row stands for more live states than rows, as document 01 names it.
    let live = picture::draw(journals, &mut drawn).ok_or(Fault::Row(ROWS, 0))?;
    match first_difference(rows, &drawn) {
        Some(spot) => Err(Fault::Row(spot.row, spot.byte)),
        None => Ok(live),
    }
}

// Books that were found sound: the journal book, and how many live rows they have. The type promises the journal book's form and the
// number of live rows; that both books are sound, `Sound::read` says.
#[derive(Clone, Copy)]
pub struct Sound<'a> {
    pub journals: JournalBook<'a>,
    pub live: usize,
    pub ghost counted: { live ≡ length (picture (journals_of journals.bytes.now)) },
}

impl<'a> Sound<'a> {
    // What is seen of both books.
    #[tactic(auto, using(books::proofs::CheckCases::check_size, books::proofs::CheckCases::check_book_one, books::proofs::CheckCases::check_formed))]
    pub fn read(journals: &'a [u8], rows: &[u8]) -> Result<Sound<'a>, Fault>
        ensures says { checked_in result ≡ check_call journals.now rows.now }
        ensures book { IfOk result (λ sound. sound.journals.bytes.now ≡ journals.now) }
    {
        let (journals, rows) = right_sizes(journals, rows).or(Err(Fault::WrongSizes))?;
        let journals = JournalBook::read(journals).map_err(Fault::Journal)?;
        let live = see_rows(&journals, rows)?;
        Ok(Sound { journals, live })
    }
}
