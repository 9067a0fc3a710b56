// The search for the live states: their sorted keys, swept once in ascending order. A live state that a step leads to stands
// after the state that it comes from, so that the sweep meets it later.
#![tactic(auto)]

mod nexts;
mod state;

ghost use Rattle.std.specs.Prelude.{◌≡◌, ◌+◌, ◌≤◌, ◌<◌, length, IsSome};
ghost use Rattle.words.specs.Limits.{step_codes};
ghost use Rattle.records.specs.Sizes.{most_rows};
ghost use Rattle.states.specs.Table.{AnyTabled};
ghost use Rattle.states.specs.Stepped.{stepped_key, with_key};
ghost use Rattle.states.specs.Found.{Sweeping, Swept, Found};

use keys::{Key, Keys};
pub use nexts::{ALL_NEXTS, NEXTS, Nexts, STEPS};
use records::ROWS;
use words::{JOURNALS, STEP_CODES};

// Puts the state that the step s leads to from a key among the keys, if it is live.
fn add_step(nexts: &Nexts, keys: &mut Keys, key: Key, s: u8)
    requires { (s < step_codes) × (length keys.old ≤ most_rows) }
    ensures { keys.new ≡ with_key nexts.now.k (stepped_key nexts.now key s) keys.old }
{
    let to = nexts.step_key(key, s);
    if nexts.is_live(to) {
        keys.insert(to);
    }
}

// Puts in all live states that row i leads to; `None` if there are more than there are rows then.
fn grow_row(nexts: &Nexts, keys: &mut Keys, i: usize) -> Option<()>
    requires { (i < length keys.old) × (length keys.old ≤ most_rows) × AnyTabled nexts.now (λ js. Sweeping js i 0 keys.old) }
    ensures few { IsSome result → length keys.new ≤ most_rows }
    ensures swept { AnyTabled nexts.now (λ js. Swept js (i + 1) result keys.new) }
{
    let key = keys.key(i);
    for s in 0..STEP_CODES {
        add_step(nexts, keys, key, s);
        if ROWS < keys.len() {
            return None;
        }
    }
    Some(())
}

// Finds the keys of all live states, in the place of the keys that there were; `None` if they are more than there are rows. The keys
// grow as they are walked, so the range is that of all rows there can be, and the walk ends behind the last key. They are lent, since a
// call that hands 16 KB back needs them twice on the stack.
pub fn find_states(nexts: &Nexts, keys: &mut Keys) -> Option<()>
    ensures { AnyTabled nexts.now (λ js. Found js result keys.new) }
{
    keys.clear();
    if nexts.k == 0 {
        return Some(());
    }
    keys.insert([0; JOURNALS]);
    for i in 0..ROWS {
        if keys.len() <= i {
            break;
        }
        grow_row(nexts, keys, i)?;
    }
    Some(())
}
