// The calls for programs in C or Rust: each is the call of its name, with its answer in one number. `selquorin_c` gives them out.
#![tactic(auto)]

ghost use Rattle.std.specs.Prelude.{◌≡◌, not, eqb};
ghost use Rattle.books.specs.Clear.{after, clear_call};
ghost use Rattle.books.specs.Open.{open_call};
ghost use Rattle.books.specs.Append.{append_call};
ghost use Rattle.books.specs.TableCount.{table_count_call};
ghost use Rattle.books.specs.JournalCount.{journal_count_call};
ghost use Rattle.books.specs.Check.{check_call};
ghost use Rattle.list.specs.ListCall.{asked, list_call};
ghost use Rattle.books.specs.RowRecord.{row_record_number_call};
ghost use Rattle.books.specs.OpenJournals.{open_journals_call};
ghost use Rattle.books.specs.LiveRows.{live_rows_call};
ghost use Rattle.books.specs.Rebuild.{rebuild_call};
ghost use Rattle.packing.specs.Packed.{packed_count, packed_check, packed_journals, packed_rows};
ghost use Rattle.selquorin.specs.PackedList.{packed_list};

use books::number_in;
use packing::{packed_check, packed_count, packed_journals, packed_page, packed_rows};

// Clears both books.
pub fn selquorin_clear(journals: &mut [u8], rows: &mut [u8]) -> u8
    ensures { after result journals.new rows.new ≡ clear_call journals.old rows.old }
{
    number_in(&writing::clear(journals, rows))
}

// Opens the next journal.
pub fn selquorin_open(journals: &mut [u8], rows: &mut [u8]) -> u8
    ensures { after result journals.new rows.new ≡ open_call journals.old rows.old }
{
    number_in(&writing::open(journals, rows))
}

// Appends a step to the journal opened last.
pub fn selquorin_append(journals: &mut [u8], rows: &mut [u8], step: u8) -> u8
    ensures { after result journals.new rows.new ≡ append_call journals.old rows.old step }
{
    number_in(&writing::append(journals, rows, step))
}

// Draws the row book anew from the journal book.
pub fn selquorin_rebuild(journals: &[u8], rows: &mut [u8]) -> u8
    ensures { after result journals.now rows.new ≡ rebuild_call journals.now rows.old }
{
    number_in(&writing::rebuild(journals, rows))
}

// Counts a word by the row book.
pub fn selquorin_table_count(rows: &[u8], word: &[u8]) -> u32
    ensures { result ≡ packed_count (table_count_call rows.now word.now) }
{
    packed_count(reading::table_count(rows, word))
}

// Counts a word by the journal book.
pub fn selquorin_journal_count(journals: &[u8], word_record: &[u8]) -> u32
    ensures { result ≡ packed_count (journal_count_call journals.now word_record.now) }
{
    packed_count(reading::journal_count(journals, word_record))
}

// Checks both books.
#[tactic(auto, using(crate::proofs::Bounds::small))]
pub fn selquorin_check(journals: &[u8], rows: &[u8]) -> u64
    ensures { result ≡ packed_check (check_call journals.now rows.now) }
{
    packed_check(checking::check(journals, rows))
}

// Lists words: from the start if `after` is 0, else after the word of the word record.
// Kept: `after` is a number beside the word record, since C lends both.
pub fn selquorin_list(
    journals: &[u8],
    rows: &[u8],
    quorum: usize,
    length: usize,
    after: u8,
    word_record: &[u8],
    out: &mut [u8],
) -> u64
    ensures answer { result ≡ packed_list (list_call (asked journals.now rows.now quorum length (not (eqb after 0)) word_record.now out.old)).answer }
    ensures output { out.new ≡ (list_call (asked journals.now rows.now quorum length (not (eqb after 0)) word_record.now out.old)).out }
{
    match list::list(journals, rows, quorum, length, after != 0, word_record, out) {
        Ok(page) => packed_page(0, page.more, page.written),
        Err(refused) => packed_page(refused.into(), false, 0),
    }
}

// The number that goes with a row record.
pub fn selquorin_row_record_number(rows: &[u8], row: usize) -> u8
    ensures { result ≡ row_record_number_call rows.now row }
{
    number_in(&reading::row_record_number(rows, row))
}

// How many journals are open.
#[tactic(auto, using(crate::proofs::Bounds::few_journals))]
pub fn selquorin_journals(journals: &[u8]) -> u32
    ensures { result ≡ packed_journals (open_journals_call journals.now) }
{
    packed_journals(reading::open_journals(journals))
}

// How many live rows sound books have.
#[tactic(auto, using(crate::proofs::Bounds::few_rows))]
pub fn selquorin_rows(journals: &[u8], rows: &[u8]) -> u32
    ensures { result ≡ packed_rows (live_rows_call journals.now rows.now) }
{
    packed_rows(checking::live_rows(journals, rows))
}
