// The sizes of the two books.
ghost use Rattle.std.specs.Prelude.{◌≡◌, true, false, MatchResult};
ghost use Rattle.records.specs.Sound.{right_sizes};
ghost use Rattle.books.specs.declared.refused.Refused.TheVariants.{WrongSize};

use books::{Refused, sized};
use records::{JOURNAL_BOOK, ROW_BOOK};

// Both books as arrays, if they have their sizes.
#[tactic(auto, using(books::proofs::BookSizes::sizes_right, books::proofs::BookSizes::journals_wrong, books::proofs::BookSizes::rows_wrong))]
pub fn right_sizes<'a, 'b>(
    journals: &'a [u8],
    rows: &'b [u8],
) -> Result<(&'a [u8; JOURNAL_BOOK], &'b [u8; ROW_BOOK]), Refused>
    ensures { MatchResult result (λ books. (right_sizes journals.now rows.now ≡ true) × (books.0.now ≡ journals.now) × (books.1.now ≡ rows.now)) (λ e. (right_sizes journals.now rows.now ≡ false) × (e ≡ WrongSize)) }
{
    Ok((sized(journals)?, sized(rows)?))
}
