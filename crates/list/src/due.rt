// The first word that is due.

ghost use Rattle.std.specs.Prelude.{◌≡◌, true, ◌≤◌, length, take, option_to_list, IfSome};
ghost use Rattle.records.specs.WordRecord.{word_form};
ghost use Rattle.list.specs.AfterWord.{word_if, due_from};
ghost use Rattle.next_word.specs.Searching.{words_of};

use next_word::{Search, Word};
use records::WORD_RECORD;

// The word that the list goes on after, if it doesn't begin at the start.
pub(crate) fn word_after(after: bool, word_record: &[u8; WORD_RECORD]) -> Option<Word>
    requires { after ≡ true → word_form word_record.now ≡ true }
    ensures { result ≡ word_if after word_record.now }
{
    after.then(|| Word::from_record(word_record))
}

// The first word that is due: from the start, or after the given word.
#[tactic(auto, using(next_word::proofs::FromOn::from_empty))]
pub(crate) fn first_due(search: &Search, after: Option<Word>) -> Option<Word>
    requires { IfSome after (λ w. length w ≤ search.now.limit) }
    ensures to { option_to_list result ≡ take 1 (due_from (words_of search.now) after) }
    ensures short { IfSome result (λ w. length w ≤ search.now.limit) }
{
    match after {
        Some(word) => search.next_word(word),
        None => search.first_from(Word::empty()),
    }
}
