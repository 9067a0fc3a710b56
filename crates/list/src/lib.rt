// The list of the words that a quorum of the journals shares, fetched in parts. It relies on the promises of `books`, `next_word` and `page` alone.
#![tactic(auto)]

mod decide;
mod due;

ghost use Rattle.std.specs.Prelude.{◌≡◌};
ghost use Rattle.list.specs.ListCall.{asked, listed_in, wrote, list_call};

use books::{Refused, sized};
pub use decide::LARGEST_OUTPUT;
use decide::decide;
use due::{first_due, word_after};
use next_word::Search;
use page::{Page, write_page};

// Lists the words of at most `limit` steps that at least `quorum` journals show, in dictionary order: from the start, or
// after the word of a word record. Writes one word record each, as many as fit into the output or as remain.
// Kept: `after` with the word record beside it, since the record's size is looked at from the start too (`list_refusals`).
pub fn list(
    journals: &[u8],
    rows: &[u8],
    quorum: usize,
    limit: usize,
    after: bool,
    word_record: &[u8],
    out: &mut [u8],
) -> Result<Page, Refused>
    ensures { wrote (listed_in result) out.new ≡ list_call (asked journals.now rows.now quorum limit after word_record.now out.old) }
{
    let word = sized(word_record)?;
    decide(journals, rows, quorum, limit, after, word, out)?;
    let search = Search {
        rows,
        quorum,
        limit,
    };
    let first = first_due(&search, word_after(after, word));
    Ok(write_page(&search, first, out))
}
