// A row by value, sixteen places and sixteen arcs: read from its record in a row book, and its record made of it. Its arc
// under a step and its count can be read alone.
ghost use Rattle.std.specs.Prelude.{◌≡◌, ◌++◌, ◌+◌, ◌*◌, ◌<◌, take, drop};
ghost use Rattle.words.specs.Limits.{step_codes};
ghost use Rattle.records.specs.Sizes.{row_record_size, most_rows};
ghost use Rattle.records.specs.RowBook.{record_of_row, behind_count, places_at, arc_at, arcs_at, count_at};

use records::{ARCS, COUNT, ROW_BOOK, ROW_RECORD};
use std::array;

// A row: sixteen places, sixteen arcs by step, and the count.
#[derive(Clone, Copy, PartialEq, Eq, Debug)]
pub struct Row {
    pub places: [u8; 16],
    pub arcs: [u16; 16],
    pub count: u8,
}

// Kept: a row book and a row's number stay two parameters, and its number being below 1,000 a clause: the array has the size in its type
// already, and a type for the number would be made anew of each arc.

// A row's count byte.
pub fn count_at(rows: &[u8; ROW_BOOK], r: usize) -> u8
    requires { r < most_rows }
    ensures { result ≡ count_at rows.now r }
{
    rows[ROW_RECORD * r + COUNT]
}

// A row's arc under a step: two bytes, low byte first.
pub fn arc_at(rows: &[u8; ROW_BOOK], r: usize, s: u8) -> u16
    requires { (r < most_rows) × (s < step_codes) }
    ensures { result ≡ arc_at rows.now r s }
{
    let at = ROW_RECORD * r + (ARCS + 2 * usize::from(s));
    u16::from_le_bytes([rows[at], rows[at + 1]])
}

impl Row {
    // A row of a row book, read from its record.
    pub fn read(rows: &[u8; ROW_BOOK], r: usize) -> Row
        requires { r < most_rows }
        ensures { (result.places ≡ places_at rows.now r) × (result.arcs ≡ arcs_at rows.now r) × (result.count ≡ count_at rows.now r) }
    {
        let at = ROW_RECORD * r;
        Row {
            places: rows[at..at + ARCS].try_into().unwrap(),
            arcs: array::from_fn(|s| arc_at(rows, r, s as u8)),
            count: count_at(rows, r),
        }
    }

    // The row's record.
    #[tactic(auto, using(crate::proofs::Written::written))]
    pub fn to_bytes(&self) -> [u8; ROW_RECORD]
        ensures { result ≡ record_of_row self.now.places self.now.arcs self.now.count behind_count }
    {
        let mut record = [0; ROW_RECORD];
        record[..ARCS].copy_from_slice(&self.places);
        for (s, arc) in self.arcs.iter().enumerate() {
            let at = ARCS + 2 * s;
            record[at..at + 2].copy_from_slice(&arc.to_le_bytes());
        }
        record[COUNT] = self.count;
        record
    }

    // Writes the row into a row book, as its row r.
    pub fn write(&self, rows: &mut [u8; ROW_BOOK], r: usize)
        requires { r < most_rows }
        ensures { rows.new ≡ take (row_record_size * r) rows.old ++ (record_of_row self.now.places self.now.arcs self.now.count behind_count ++ drop (row_record_size * r + row_record_size) rows.old) }
    {
        let at = ROW_RECORD * r;
        rows[at..at + ROW_RECORD].copy_from_slice(&self.to_bytes());
    }
}
