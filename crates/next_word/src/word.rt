// A word by value, and how it moves: extended, its last step raised, shortened, each time handed back.

ghost use Rattle.std.specs.Prelude.{◌≡◌, true, [], ◌∷◌, ◌++◌, ◌+◌, ◌-◌, ◌≤◌, ◌<◌, length, take, slice_get, slice_index, option_to_list, IfSome};
ghost use Rattle.next_word.specs.Next.{climbed};
ghost use Rattle.records.specs.Sizes.{longest_word};
ghost use Rattle.records.specs.WordRecord.{word_form, word_of, word_record};
ghost use Rattle.words.specs.Limits.{step_codes};
ghost use Rattle.words.specs.Words.{IsWord};

use records::WORD_RECORD;
use std::marker::Model;
use words::STEP_CODES;

// The highest step code, which can't be raised.
const HIGHEST_STEP: u8 = STEP_CODES - 1;

// A word of up to 15 steps, held as its word record. A contract sees the row of its steps, and what stands behind them is zero.
#[derive(Clone, Copy)]
pub struct Word {
    bytes: [u8; WORD_RECORD],
}

impl Model for Word {
    ghost use Rattle.std.specs.Prelude.{◌≡◌, true, List, ℕ, length};
    ghost use Rattle.std.proofs.Common.{sym, le_refl};
    ghost use Rattle.records.specs.Sizes.{word_record_size, longest_word};
    ghost use Rattle.records.specs.WordRecord.{word_form, word_of, word_record};
    ghost use Rattle.records.proofs.StepBytes.{form_steps};

    ghost Value = { List ℕ };

    ghost view = { λ w. word_of w.bytes };

    ghost invariant = { λ w. (length w.bytes ≡ word_record_size) × (word_form w.bytes ≡ true) };

    ghost inverse = { λ w. record { bytes = word_record w } };

    ghost inverse_ok = { λ w h i. record { bytes = sym (form_steps longest_word longest_word w.bytes h.0 (le_refl longest_word) h.1).0 i } };
}

impl Word {
    // The empty word.
    pub fn empty() -> Word
        ensures { result ≡ [] }
    {
        Word {
            bytes: [0; WORD_RECORD],
        }
    }

    // The word of a word record.
    pub fn from_record(word_record: &[u8; WORD_RECORD]) -> Word
        requires { word_form word_record.now ≡ true }
        ensures { result ≡ word_of word_record.now }
    {
        Word {
            bytes: *word_record,
        }
    }

    // The word's steps.
    #[tactic(auto, using(crate::proofs::WordMoves::record_word))]
    pub fn steps(&self) -> &[u8]
        ensures steps { result.now ≡ self.now }
        ensures short { length self.now ≤ longest_word }
        ensures codes { IsWord self.now }
    {
        let n = usize::from(self.bytes[0]);
        &self.bytes[1..=n]
    }

    // The word's record.
    #[tactic(auto, using(crate::proofs::WordBytes::record_back))]
    pub fn as_record(&self) -> &[u8; WORD_RECORD]
        ensures { result.now ≡ word_record self.now }
    {
        &self.bytes
    }

    // The word with step 0 behind it: the first of its extensions. The zero stands there already.
    #[tactic(auto, using(crate::proofs::WordMoves::record_word))]
    pub(crate) fn extend(mut self) -> Word
        requires { length self < longest_word }
        ensures { result ≡ self ++ 0 ∷ [] }
    {
        self.bytes[0] += 1;
        self
    }

    // The word with its last step raised by one.
    #[tactic(auto, using(crate::proofs::WordMoves::record_word))]
    pub(crate) fn raise(mut self) -> Word
        requires { (0 < length self) × (slice_index self (length self - 1) + 1 < step_codes) }
        ensures { result ≡ take (length self - 1) self ++ (slice_index self (length self - 1) + 1) ∷ [] }
    {
        let n = usize::from(self.bytes[0]);
        self.bytes[n] += 1;
        self
    }

    // The word without its last step.
    #[tactic(auto, using(crate::proofs::WordMoves::record_word))]
    pub(crate) fn shorten(mut self) -> Word
        ensures { result ≡ take (length self - 1) self }
    {
        let n = self.bytes[0];
        self.bytes[usize::from(n)] = 0;
        self.bytes[0] = n.saturating_sub(1);
        self
    }

    // The last step, if there is one.
    fn last(&self) -> Option<u8>
        ensures { result ≡ slice_get self.now (length self.now - 1) }
    {
        self.steps().last().copied()
    }
}

// The first word after w that is no extension of it: shortened until its last step can be raised, and raised.
pub(crate) fn climb(w: Word) -> Option<Word>
    ensures to { option_to_list result ≡ climbed w }
    ensures short { IfSome result (λ v. length v ≤ length w) }
{
    let mut v = w;
    while let Some(last) = v.last() {
        if last < HIGHEST_STEP {
            return Some(v.raise());
        }
        v = v.shorten();
    }
    None
}
