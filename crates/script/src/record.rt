// Records as they are printed. Of a row record its places, the arcs that aren't 0 as STEP:ROW, its count, and what stands behind;
// of a word record its length and its steps.

ghost use Rattle.std.specs.Prelude.{◌≡◌, ◌+◌, ◌≤◌, length, take, slice_index};
ghost use Rattle.records.specs.Sizes.{word_record_size};

use crate::print::Bytes;
use records::{ARCS, COUNT, ROW_RECORD, WORD_RECORD};
use std::fmt;

// The arcs of a row record.
#[derive(Clone, Copy)]
struct Arcs<'a>(&'a [u8]);

// A whole row record.
#[derive(Clone, Copy)]
pub struct Row<'a>(pub &'a [u8; ROW_RECORD]);

// Some word records.
#[derive(Clone, Copy)]
pub struct Words<'a>(pub &'a [u8]);

impl fmt::Display for Arcs<'_> {
    fn fmt<W: fmt::Write>(&self, f: &mut fmt::Formatter<W>) -> fmt::Result {
        let (arcs, _) = self.0.as_chunks::<2>();
        for (step, arc) in arcs.iter().enumerate() {
            let row = u16::from_le_bytes(*arc);
            if row != 0 {
                write!(f, " {step}:{row}")?;
            }
        }
        Ok(())
    }
}

impl fmt::Display for Row<'_> {
    fn fmt<W: fmt::Write>(&self, f: &mut fmt::Formatter<W>) -> fmt::Result {
        let record = self.0;
        let places = Bytes(&record[..ARCS]);
        let arcs = Arcs(&record[ARCS..COUNT]);
        let count = record[COUNT];
        let rest = Bytes(&record[COUNT + 1..]);
        write!(f, ", places{places}, arcs{arcs}, count {count}, then{rest}")
    }
}

// The length and the steps of a word record; all of it if the length is too large.
fn used(word: &[u8; WORD_RECORD]) -> &[u8]
    ensures within { length result.now ≤ word_record_size }
    ensures front { result.now ≡ take (slice_index word.now 0 + 1) word.now }
{
    let length = usize::from(word[0]);
    word.get(..=length).unwrap_or(word)
}

impl fmt::Display for Words<'_> {
    fn fmt<W: fmt::Write>(&self, f: &mut fmt::Formatter<W>) -> fmt::Result {
        let (words, _) = self.0.as_chunks::<WORD_RECORD>();
        for word in words {
            write!(f, " |{}", Bytes(used(word)))?;
        }
        Ok(())
    }
}
