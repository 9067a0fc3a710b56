// The table of next places, so that stepping a place reads one byte and no journal.

ghost use Rattle.std.specs.Prelude.{◌≡◌, cond, ◌+◌, ◌≤◌, ◌<◌, length, get_or, ltb};
ghost use Rattle.records.specs.JournalBook.{journals_of};
ghost use Rattle.words.specs.Limits.{step_codes, longest_journal, most_journals, lost};
ghost use Rattle.states.specs.Nexts.{nexts_of_one, next_entry, NextsOf};

use journal::JournalBook;
use words::{JOURNALS, LONGEST_JOURNAL, LOST, STEP_CODES};

// The entries of one journal: 201 places by 16 steps.
pub const NEXTS: usize = (LONGEST_JOURNAL + 1) * STEPS;

// The entries of all journals.
pub const ALL_NEXTS: usize = JOURNALS * NEXTS;

// The entries of one place, one for each step.
// Kept: `as`, since a constant can't call `usize::from`.
pub const STEPS: usize = STEP_CODES as usize;

// The entries of k journals, one after the other.
// Kept: one flat array with a number beside it, since `Tabled` and `NextsOf` say of one row of bytes where each entry stands.
#[derive(Drop)]
pub struct Nexts {
    pub entries: [u8; ALL_NEXTS],
    pub k: usize,
    pub ghost few: { k ≤ most_journals },
}

// Kept: 255 stands for a lost place, here and in `state.rt`, as in a row's bytes, which `next` and document 01 hold.

// The entry one place further on, or lost behind the last.
fn further_on(entries: &[u8], x: usize) -> u8
    requires { (length entries.now ≡ nexts_of_one) × (x < nexts_of_one) }
    ensures { result ≡ cond (ltb (x + step_codes) nexts_of_one) (get_or entries.now (x + step_codes) 0) lost }
{
    if x + STEPS < NEXTS {
        return entries[x + STEPS];
    }
    LOST
}

// Entry x of a journal, from the entry one place further on.
#[tactic(auto, unfolding(crate::specs::Nexts::next_entry))]
fn next_entry(steps: &[u8], x: usize, further: u8) -> u8
    requires { length steps.now ≤ longest_journal }
    ensures { result ≡ next_entry steps.now x further }
{
    let p = x / STEPS;
    if p < steps.len() {
        if usize::from(steps[p]) == x % STEPS {
            return (p + 1) as u8;
        }
        return further;
    }
    LOST
}

// Fills in the entries of one journal, the last place first.
fn fill_nexts(steps: &[u8], entries: &mut [u8])
    requires { (length steps.now ≤ longest_journal) × (length entries.old ≡ nexts_of_one) }
    ensures { NextsOf steps.now entries.new }
{
    for x in (0..NEXTS).rev() {
        let further = further_on(entries, x);
        entries[x] = next_entry(steps, x, further);
    }
}

impl Nexts {
    ghost use Rattle.states.specs.Table.{TableOf};

    // A table of no journal.
    pub fn new() -> Self
        ensures { result.k ≡ 0 }
    {
        Nexts {
            entries: [0; ALL_NEXTS],
            k: 0,
        }
    }

    // Makes it the table of the journals of a book. It is lent, since a call that hands 51 KB back needs them twice on the stack.
    pub fn tabulate(&mut self, journals: &JournalBook<'_>)
        ensures { TableOf (journals_of journals.now.bytes.now) self.new }
    {
        self.k = journal::open_count(journals.bytes);
        for i in 0..self.k {
            let a = NEXTS * i;
            fill_nexts(journals.journal_at(i), &mut self.entries[a..a + NEXTS]);
        }
    }
}
