// Printing: the first line, a line for each word of the list, page after page, and the last line.

ghost use Rattle.std.specs.Prelude.{◌≡◌, length, replicate, IfOk, IfSome};
ghost use Rattle.std.specs.Option.{is_some, unwrap_or};
ghost use Rattle.words.specs.Words.{count};
ghost use Rattle.words.specs.Listing.{list_of};
ghost use Rattle.records.specs.JournalBook.{journals_of};
ghost use Rattle.records.specs.Sizes.{word_record_size};
ghost use Rattle.list.specs.ListCall.{asked, listed_in, wrote, list_call};

use crate::list_page::{PAGE, PAGE_WORDS, Text, page_text};
use ask::Ask;
use books::Refused;
use page::Page;
use records::WORD_RECORD;
use std::io;
use text::Line;

// More pages than any list has: all words of up to 15 steps fill fewer.
const TURNS: usize = 9007199254740992;

// Prints a line.
pub(crate) fn print_line(rt: &impl Print, line: Line) -> io::Result<()> {
    rt.write_all(line.as_bytes())
}

// Fetches a page of the list, from the start or after a word.
// Kept: the two books stay two parameters, here and up to `main`, as in every call that they are handed to.
fn fetch(
    journals: &[u8],
    rows: &[u8],
    ask: Ask,
    last: Option<[u8; WORD_RECORD]>,
    page: &mut [u8; PAGE],
) -> Result<Page, Refused>
    ensures { wrote (listed_in result) page.new ≡ list_call (asked journals.now rows.now ask.quorum ask.limit
        (is_some last) (unwrap_or last (replicate word_record_size 0)) page.old) }
{
    let after = last.is_some();
    let word_record = last.unwrap_or([0u8; WORD_RECORD]);
    list::list(
        journals,
        rows,
        ask.quorum,
        ask.limit,
        after,
        &word_record,
        page,
    )
}

// Prints the words of the list, page after page, from the start or after a word. Answers how many there were, if the list
// came to its end. Then they are as many as the list has.
fn print_words(rt: &impl Print, journals: &[u8], rows: &[u8], ask: Ask) -> io::Result<Option<usize>>
    ensures { IfOk result (λ end. IfSome end (λ words.
        words ≡ length (list_of (count (journals_of journals.now)) ask.quorum ask.limit))) }
{
    let mut page = [0u8; PAGE];
    let mut text = Text::new();
    let mut last: Option<[u8; WORD_RECORD]> = None;
    let mut words = 0;
    for _ in 0..TURNS {
        let Ok(Page { written, more }) = fetch(journals, rows, ask, last, &mut page) else {
            return Ok(None);
        };
        let written = written.min(PAGE_WORDS);
        page_text(rows, &page, written, &mut text);
        rt.write_all(text.as_slice())?;
        words += written;
        if !more {
            return Ok(Some(words));
        }
        // A part with words behind it is full.
        last = Some(page[PAGE - WORD_RECORD..].try_into().unwrap());
    }
    Ok(None)
}

// Prints the list: the first line, the words, and the last line once every word was written.
pub(crate) fn print_list(
    rt: &impl Print,
    journals: &[u8],
    rows: &[u8],
    ask: Ask,
) -> io::Result<()> {
    let k = reading::open_journals(journals).unwrap_or(0);
    let live = checking::live_rows(journals, rows).unwrap_or(0);
    print_line(rt, text::first_line(k, live))?;
    match print_words(rt, journals, rows, ask)? {
        Some(words) => print_line(rt, text::last_line(words)),
        None => Ok(()),
    }
}
