// The row record call, and what is printed of it.

use crate::calls::Lent;
use books::number_in;
use script::record::Row;
use std::io;
use std::io::Write;

impl Lent<'_> {
    // Prints the number of the call, and the part that it gives back.
    pub(crate) fn row<W: Write>(&self, out: &mut W, row: usize) -> io::Result<()> {
        let number = number_in(&reading::row_record_number(self.rows, row));
        write!(out, " -> {number}")?;
        let given = reading::row_record(self.rows, row);
        match given.as_array() {
            Some(record) => write!(out, "{}", Row(record)),
            None => write!(out, ", length {}", given.len()),
        }
    }
}
