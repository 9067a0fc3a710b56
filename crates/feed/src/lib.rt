// What the loading program does with its entries. Of the books it relies on the promises of `books` alone.
#![tactic(auto)]

mod entry;

ghost use Rattle.std.specs.Prelude.{◌≡◌};
ghost use Rattle.feed.specs.Entry.{fed, feed_call};

use books::Refused;
use entries::Reader;
pub use entry::enter;
use entry::take;

// The refusal that ended a row of entries, and how many were taken before it.
#[derive(Clone, Copy, Debug, PartialEq, Eq)]
pub struct RefusedEntry {
    pub refused: Refused,
    pub taken: usize,
}

// Takes entries in their order until one is refused. Answers how many were taken.
#[tactic(auto, using(crate::proofs::FeedCases::feeds, crate::proofs::FeedCases::few_in, crate::proofs::FeedCases::taken_refused), unfolding(crate::specs::Entry::feed_call))]
pub fn feed(journals: &mut [u8], rows: &mut [u8], entries: &[u8]) -> Result<usize, RefusedEntry>
    ensures { fed result journals.new rows.new ≡ feed_call journals.old rows.old entries.now }
{
    let mut taken = 0;
    for read in Reader::new(entries) {
        if let Err(refused) = take(journals, rows, read) {
            return Err(RefusedEntry { refused, taken });
        }
        taken += 1;
    }
    Ok(taken)
}
