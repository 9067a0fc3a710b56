// The rows of the states in a row book: first laid with their places, then each read by value and written with its arcs,
// from the last row to the first. Arcs rise, so that the rows that an arc can lead to are written before its own.

ghost use Rattle.std.specs.Prelude.{◌≡◌, ◌≤◌, length};
ghost use Rattle.records.specs.RowBook.{book_of};
ghost use Rattle.records.specs.Sizes.{most_rows};
ghost use Rattle.picture.specs.KeyRow.{key_book};
ghost use Rattle.picture.specs.Laid.{laid};

use crate::arcs::step_row;
use keys::Keys;
use records::{ROW_BOOK, ROW_RECORD};
use rows::Row;
use states::Nexts;
use words::JOURNALS;

// Lays a record for each of the states, with its places and nothing else, and zeros behind them.
fn lay_rows(keys: &Keys, rows: &mut [u8; ROW_BOOK])
    requires { length keys.now ≤ most_rows }
    ensures { rows.new ≡ book_of laid keys.now }
{
    rows.fill(0);
    for r in (0..keys.len()).rev() {
        let at = ROW_RECORD * r;
        rows[at..at + JOURNALS].copy_from_slice(&keys.key(r));
    }
}

// Draws the rows of the states, and zeros behind them.
pub(crate) fn draw_rows(nexts: &Nexts, keys: &Keys, rows: &mut [u8; ROW_BOOK])
    requires { length keys.now ≤ most_rows }
    ensures { rows.new ≡ key_book nexts.now keys.now }
{
    lay_rows(keys, rows);
    for i in (0..keys.len()).rev() {
        step_row(nexts, keys, Row::read(rows, i)).write(rows, i);
    }
}
