// One entry: what it does to the books.

ghost use Rattle.std.specs.Prelude.{◌≡◌};
ghost use Rattle.books.specs.Answers.{number_in};
ghost use Rattle.books.specs.Clear.{after};
ghost use Rattle.feed.specs.Entry.{open_append, open_append_whole, entry_call, take_call};

use books::{Refused, sized};
use entries::{Entry, LoneByte, entry_of};
use records::{JOURNAL_BOOK, ROW_BOOK};

// Kept: the two books stay two parameters, as in every call, since `entry_call` names both.

// Opens the next journal and, where that is done, appends to it.
#[tactic(auto, unfolding(crate::specs::Entry::open_append))]
fn open_append(journals: &mut [u8], rows: &mut [u8], step: u8) -> Result<(), Refused>
    ensures { after (number_in result) journals.new rows.new ≡ open_append journals.old rows.old step }
{
    writing::open(journals, rows)?;
    writing::append(journals, rows, step)
}

// Opens the next journal and appends to it, or does neither: on copies of the books until both are done.
#[tactic(auto, using(crate::proofs::EntryCases::whole_journals, crate::proofs::EntryCases::whole_rows), unfolding(crate::specs::Entry::open_append_whole))]
fn open_append_whole(journals: &mut [u8], rows: &mut [u8], step: u8) -> Result<(), Refused>
    ensures { after (number_in result) journals.new rows.new ≡ open_append_whole journals.old rows.old step }
{
    let mut new_journals: [u8; JOURNAL_BOOK] = *sized(journals)?;
    let mut new_rows: [u8; ROW_BOOK] = *sized(rows)?;
    open_append(&mut new_journals, &mut new_rows, step)?;
    journals.copy_from_slice(&new_journals);
    rows.copy_from_slice(&new_rows);
    Ok(())
}

// Takes one entry, whole or not at all.
#[tactic(auto, unfolding(crate::specs::Entry::entry_call, crate::specs::Entry::enter, books::specs::OpenJournals::open_journals_call))]
pub fn enter(journals: &mut [u8], rows: &mut [u8], number: u8, step: u8) -> Result<(), Refused>
    ensures { after (number_in result) journals.new rows.new ≡ entry_call journals.old rows.old number step }
{
    let k = reading::open_journals(journals)?;
    match entry_of(k, number, step) {
        None => Err(Refused::BrokenEntry),
        Some(Entry::Append(s)) => writing::append(journals, rows, s),
        Some(Entry::Open) => writing::open(journals, rows),
        Some(Entry::OpenAppend(s)) => open_append_whole(journals, rows, s),
    }
}

// Takes what was read, whole or not at all; a lone last byte is broken.
pub(crate) fn take(
    journals: &mut [u8],
    rows: &mut [u8],
    read: Result<(u8, u8), LoneByte>,
) -> Result<(), Refused>
    ensures { after (number_in result) journals.new rows.new ≡ take_call journals.old rows.old read }
{
    let (number, step) = read.or(Err(Refused::BrokenEntry))?;
    enter(journals, rows, number, step)
}
