// One part of the list: words written into the output, every word into its own 16 bytes.
#![tactic(auto)]

ghost use Rattle.std.specs.Prelude.{◌≡◌, ◌/◌, ◌≤◌, length, take, ltb, option_to_list, IfSome};
ghost use Rattle.records.specs.Sizes.{word_record_size};
ghost use Rattle.records.specs.WordRecord.{word_record};
ghost use Rattle.page.specs.WordsFrom.{words_from};
ghost use Rattle.page.specs.Written.{written};

use next_word::{Search, Word};
use records::WORD_RECORD;

// How many words were written, and whether a further one remains.
// Kept: a flag beside a number, since neither says when the other counts: both are said of every page (`list_call`).
#[derive(Clone, Copy, Debug, PartialEq, Eq)]
pub struct Page {
    pub written: usize,
    pub more: bool,
}

// Writes a word's record into its own 16 bytes.
// Kept: tried on an array, by `try_into().unwrap()` and `first_chunk_mut().unwrap()`, and the loop's proof didn't close: the output then isn't known.
fn write_record(out: &mut [u8], w: &Word)
    requires { length out.old ≡ word_record_size }
    ensures { out.new ≡ word_record w.now }
{
    out.copy_from_slice(w.as_record());
}

// Writes the words of the list from the first one on, as many as fit or as remain.
pub fn write_page(search: &Search, first: Option<Word>, out: &mut [u8]) -> Page
    requires short { IfSome first (λ w. length w ≤ search.now.limit) }
    requires first { option_to_list first ≡ take 1 (words_from search.now first) }
    ensures count { result.written ≡ length (take (length out.old / word_record_size) (words_from search.now first)) }
    ensures more { result.more ≡ ltb result.written (length (words_from search.now first)) }
    ensures out_after { out.new ≡ written (take (length out.old / word_record_size) (words_from search.now first)) out.old }
{
    let mut at = first;
    let room = out.len() / WORD_RECORD;
    // Kept: tried as `for part in out.chunks_exact_mut(..)`, and the proof didn't close: of the output behind that loop only its length is known.
    for i in 0..room {
        let Some(word) = at else {
            return Page {
                written: i,
                more: false,
            };
        };
        let start = WORD_RECORD * i;
        let end = start + WORD_RECORD;
        write_record(&mut out[start..end], &word);
        at = search.next_word(word);
    }
    Page {
        written: room,
        more: at.is_some(),
    }
}
