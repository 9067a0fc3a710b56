// The calls that read both books and judge them. Each call's promise is one equation with a definition of `books`, and holds for every input.
#![tactic(auto)]

mod seen;
pub mod size;

ghost use Rattle.std.specs.Prelude.{◌≡◌};
ghost use Rattle.books.specs.Answers.{checked_in, live_rows_in};
ghost use Rattle.books.specs.Check.{check_call};
ghost use Rattle.books.specs.LiveRows.{live_rows_call};

use books::{Fault, Refused};
pub use seen::Sound;

// Kept: the two books stay two parameters, since each exported call lends them as two slices (`selquorin_c`) and each contract names both.

// Checks both books: whether they are sound, and if not, where the first fault is.
pub fn check(journals: &[u8], rows: &[u8]) -> Result<(), Fault>
    ensures { checked_in result ≡ check_call journals.now rows.now }
{
    Sound::read(journals, rows)?;
    Ok(())
}

// How many live rows sound books have.
#[tactic(auto, using(books::proofs::LiveRowsCases::live_refused, books::proofs::LiveRowsCases::live_found))]
pub fn live_rows(journals: &[u8], rows: &[u8]) -> Result<usize, Refused>
    ensures { live_rows_in result ≡ live_rows_call journals.now rows.now }
{
    let sound = Sound::read(journals, rows)?;
    Ok(sound.live)
}
