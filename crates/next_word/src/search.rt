// The search for the next word that the quorum admits, through the table count's promise alone.

ghost use Rattle.std.specs.Prelude.{◌≡◌, ◌≤◌, length, take, leb, option_to_list, IfSome};
ghost use Rattle.words.specs.Listing.{past, Falling};
ghost use Rattle.words.specs.Words.{IsWord};
ghost use Rattle.next_word.specs.Next.{from_on, table_of};
ghost use Rattle.records.specs.Sizes.{longest_word};

use crate::word::{Word, climb};

// What the list is asked for: the words of at most `limit` steps whose count by the row book reaches the quorum.
#[derive(Clone, Copy, Debug)]
pub struct Search<'a> {
    pub rows: &'a [u8],
    pub quorum: usize,
    pub limit: usize,
    pub ghost short: { limit ≤ longest_word },
    pub ghost falls: { Falling (table_of rows.now) },
}

impl<'a> Search<'a> {
    ghost use Rattle.next_word.specs.Searching.{words_of};

    // Whether a word's count reaches the quorum.
    #[tactic(auto, using(books::proofs::RefusalNumbers::count_told), unfolding(crate::specs::Next::table_of))]
    fn reaches(&self, w: &Word) -> bool
        ensures count { result ≡ leb self.now.quorum (table_of self.now.rows.now w.now) }
        ensures codes { IsWord w.now }
    {
        let count = reading::table_count(self.rows, w.steps()).unwrap_or(0);
        self.quorum <= usize::from(count)
    }

    // Kept: that a word has at most `limit` steps stays a clause, here, in `page` and in `list`: a `Word` knows of no limit.

    // The first word of the list from w on: a word below the quorum is left for the next one that is no extension of it.
    pub fn first_from(&self, w: Word) -> Option<Word>
        requires { length w ≤ self.now.limit }
        ensures to { option_to_list result ≡ take 1 (from_on w (words_of self.now)) }
        ensures short { IfSome result (λ v. length v ≤ self.now.limit) }
    {
        let mut v = w;
        while !self.reaches(&v) {
            v = climb(v)?;
        }
        Some(v)
    }

    // The first word of the list after w, which need not be in the list itself.
    pub fn next_word(&self, w: Word) -> Option<Word>
        requires { length w ≤ self.now.limit }
        ensures to { option_to_list result ≡ take 1 (past w (words_of self.now)) }
        ensures short { IfSome result (λ v. length v ≤ self.now.limit) }
    {
        if w.steps().len() < self.limit {
            return self.first_from(w.extend());
        }
        let v = climb(w)?;
        self.first_from(v)
    }
}
