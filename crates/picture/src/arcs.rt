// A row's arcs: its places are stepped to a new array under each step, and that is looked for among the states.

ghost use Rattle.std.specs.Prelude.{◌≡◌, ◌<◌, take};
ghost use Rattle.words.specs.Limits.{step_codes};
ghost use Rattle.records.specs.RowBook.{count_byte};
ghost use Rattle.picture.specs.KeyRow.{key_arc, key_arcs};

use keys::{Key, Keys};
use rows::Row;
use states::Nexts;
use std::array;

// Kept: the table and the keys stay two parameters: the search puts keys in while it reads the table, and here both are only read.

// Kept: 0 stands for no arc, as in a row's bytes, which `key_arc` and document 01 hold.
// The arc of a key under step s: the row number of the state that it leads to, and 0 if that isn't live.
#[tactic(auto, unfolding(crate::specs::KeyRow::key_arc))]
fn arc_of(nexts: &Nexts, keys: &Keys, key: Key, s: u8) -> u16
    requires { s < step_codes }
    ensures { result ≡ key_arc nexts.now keys.now key s }
{
    let to = nexts.step_key(key, s);
    if nexts.is_live(to) {
        return keys.rank(to) as u16;
    }
    0
}

// A row with its arcs and its count, whatever they were.
pub(crate) fn step_row(nexts: &Nexts, keys: &Keys, row: Row) -> Row
    ensures places { result.places ≡ row.places }
    ensures arcs { result.arcs ≡ key_arcs nexts.now keys.now row.places }
    ensures count { result.count ≡ count_byte (take nexts.now.k row.places) }
{
    Row {
        places: row.places,
        arcs: array::from_fn(|s| arc_of(nexts, keys, row.places, s as u8)),
        count: nexts.count_of(row.places),
    }
}
