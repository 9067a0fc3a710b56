// Deciding whether the list is refused, which only reads.

ghost use Rattle.std.specs.Prelude.{◌≡◌, ◌||◌, [], get_or, eqb, ltb};
ghost use Rattle.books.specs.Answers.{number_in};
ghost use Rattle.books.specs.Numbers.{first};
ghost use Rattle.books.specs.JournalCount.{journal_count_call};
ghost use Rattle.list.specs.ListCall.{asked, wrong_output, list_refusals};
ghost use Rattle.next_word.specs.Next.{table_of};

use books::Refused;
use records::{LONGEST_WORD, WORD_RECORD};

// The most bytes that an output may have.
pub const LARGEST_OUTPUT: usize = 65536;

// Whether an output has no room for whole word records, for none, or for more than 4,096.
fn wrong_output(out: &[u8]) -> bool
    ensures { result ≡ wrong_output out.now }
{
    let n = out.len();
    n % WORD_RECORD != 0 || n < WORD_RECORD || LARGEST_OUTPUT < n
}

// Whether the list is refused, and with what.
// Kept: seven parameters, which are those of the call, and C lends them one by one; a struct of them would be taken apart at once.
pub(crate) fn decide(
    journals: &[u8],
    rows: &[u8],
    quorum: usize,
    limit: usize,
    after: bool,
    word_record: &[u8; WORD_RECORD],
    out: &[u8],
) -> Result<(), Refused>
    ensures { number_in result ≡ first (list_refusals (asked journals.now rows.now quorum limit after word_record.now out.now)) }
{
    if wrong_output(out) {
        return Err(Refused::WrongSize);
    }
    checking::check(journals, rows)?;
    if LONGEST_WORD < limit {
        return Err(Refused::WrongLength);
    }
    if wrong_quorum(rows, quorum) {
        return Err(Refused::WrongQuorum);
    }
    if after && wrong_word(journals, limit, word_record) {
        return Err(Refused::WrongWord);
    }
    Ok(())
}

// Whether a quorum is below 1 or above the number of journals, which is the count of the empty word.
#[tactic(auto, using(books::proofs::RefusalNumbers::count_told), unfolding(next_word::specs::Next::table_of))]
fn wrong_quorum(rows: &[u8], quorum: usize) -> bool
    ensures { result ≡ (ltb quorum 1 || ltb (table_of rows.now []) quorum) }
{
    let k = reading::table_count(rows, &[]).unwrap_or(0);
    quorum < 1 || usize::from(k) < quorum
}

// Whether a word record is of wrong form, which the journal count tells, or longer than the list length.
fn wrong_word(journals: &[u8], limit: usize, word_record: &[u8; WORD_RECORD]) -> bool
    ensures { result ≡ (eqb (journal_count_call journals.now word_record.now).number 10 || ltb limit (get_or word_record.now 0 0)) }
{
    let counted = reading::journal_count(journals, word_record);
    matches!(counted, Err(Refused::WrongWord)) || limit < usize::from(word_record[0])
}
