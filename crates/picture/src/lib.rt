// The picture of the journals: the live states, found by one ascending sweep, and drawn into a row book.
#![tactic(auto)]

mod arcs;
mod drawing;

ghost use Rattle.std.specs.Prelude.{◌≡◌};
ghost use Rattle.records.specs.JournalBook.{journals_of};
ghost use Rattle.picture.specs.Drawn.{rows_found, drawn};

use drawing::draw_rows;
use journal::JournalBook;
use keys::Keys;
use records::ROW_BOOK;
use states::{Nexts, find_states};

// Draws the picture into a row book and answers how many live states there are; with more than 1,000 it is `None`, and the row book stays as it was.
pub fn draw(journals: &JournalBook<'_>, rows: &mut [u8; ROW_BOOK]) -> Option<usize>
    ensures found { result ≡ rows_found (journals_of journals.now.bytes.now) }
    ensures rows_after { rows.new ≡ drawn (journals_of journals.now.bytes.now) rows.old }
{
    let mut nexts = Nexts::new();
    nexts.tabulate(journals);
    let mut keys = Keys::new();
    find_states(&nexts, &mut keys)?;
    draw_rows(&nexts, &keys, rows);
    Some(keys.len())
}
