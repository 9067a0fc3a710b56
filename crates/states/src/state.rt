// One state as a key of sixteen places, of which those of the open journals count: stepped to a new array, live, counted.

ghost use Rattle.std.specs.Prelude.{◌≡◌, ◌<◌, take};
ghost use Rattle.words.specs.Places.{live};
ghost use Rattle.words.specs.Limits.{step_codes, most_journals};
ghost use Rattle.records.specs.RowBook.{count_byte};
ghost use Rattle.states.specs.Stepped.{next_at, stepped_key};

use crate::nexts::{NEXTS, Nexts, STEPS};
use keys::Key;
use words::{JOURNALS, LONGEST_JOURNAL, LOST};

impl Nexts {
    // Kept: that s is a step code stays a clause here, in `rows` and in `picture`: a type for it would be made anew of each byte and each count from 0 to 15.
    // The place that the step s leads to from the place p in journal i.
    #[tactic(auto, unfolding(crate::specs::Stepped::next_at))]
    fn next_at(&self, i: usize, p: u8, s: u8) -> u8
        requires { (i < most_journals) × (s < step_codes) }
        ensures { result ≡ next_at self.now.entries i p s }
    {
        let at = usize::from(p);
        if LONGEST_JOURNAL < at {
            return LOST;
        }
        self.entries[NEXTS * i + (STEPS * at + usize::from(s))]
    }

    // The places that the step s leads to, as a new array; 0 for a journal that isn't open.
    pub fn step_key(&self, key: Key, s: u8) -> Key
        requires { s < step_codes }
        ensures { result ≡ stepped_key self.now key s }
    {
        let mut to = [0; JOURNALS];
        for i in 0..self.k {
            to[i] = self.next_at(i, key[i], s);
        }
        to
    }

    // Whether a place in an open journal isn't lost.
    pub fn is_live(&self, key: Key) -> bool
        ensures { result ≡ live (take self.now.k key) }
    {
        key[..self.k].iter().any(|&p| p != LOST)
    }

    // What the count byte of a key's row says: in how many open journals the place isn't lost.
    pub fn count_of(&self, key: Key) -> u8
        ensures { result ≡ count_byte (take self.now.k key) }
    {
        key[..self.k].iter().filter(|&&p| p != LOST).count() as u8
    }
}
