// Where two row books first differ.

ghost use Rattle.std.specs.Prelude.{◌≡◌, ◌+◌, ◌*◌, ◌<◌, MatchOption};
ghost use Rattle.records.specs.Sizes.{row_book_size, row_record_size, most_rows};
ghost use Rattle.records.specs.Bytes.{differ};

use records::{ROW_BOOK, ROW_RECORD, ROWS};

// A row and a byte in it.
#[derive(Clone, Copy, PartialEq, Eq, Debug)]
pub struct Spot {
    pub row: usize,
    pub byte: usize,
}

// Kept: the walk in two loops with a label to leave them by is a form of document 01.
// Walks over the row records, and in each over its bytes, up to the first that differs from the picture; the answer is None where none does.
#[tactic(auto, using(crate::proofs::Alike::alike))]
pub fn first_difference(rows: &[u8; ROW_BOOK], picture: &[u8; ROW_BOOK]) -> Option<Spot>
    ensures { MatchOption result (differ rows.now picture.now ≡ row_book_size) (λ spot. (differ rows.now picture.now ≡ row_record_size * spot.row + spot.byte) × (spot.row < most_rows) × (spot.byte < row_record_size)) }
{
    'rows: {
        for row in 0..ROWS {
            for byte in 0..ROW_RECORD {
                let at = ROW_RECORD * row + byte;
                if rows[at] != picture[at] {
                    break 'rows Some(Spot { row, byte });
                }
            }
        }
        None
    }
}
