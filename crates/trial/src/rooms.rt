// The rooms of the books and of the output, and what the commands do there.

use crate::calls::Lent;
use crate::command::{Book, Call, Command};
use crate::stop::Stop;
use list::LARGEST_OUTPUT;
use records::{JOURNAL_BOOK, JOURNAL_RECORD, ROW_BOOK, ROW_RECORD, WORD_RECORD};
use script::digest::digest;
use std::io::Write;

// The room of each book: one record more than the book, so that a book can be lent too long, and a write behind it shows.
const JOURNAL_ROOM: usize = JOURNAL_BOOK + JOURNAL_RECORD;

const ROW_ROOM: usize = ROW_BOOK + ROW_RECORD;

// The room of the output: two records more than the largest output, for the same two ends.
const OUTPUT_ROOM: usize = LARGEST_OUTPUT + 2 * WORD_RECORD;

// The room of a book, and how many bytes of it are lent.
// Kept: a number and not a slice, since `lent` may be larger than the room, which is tried too.
#[derive(Drop)]
struct Room<const N: usize> {
    bytes: [u8; N],
    lent: usize,
}

// The rooms of the books and of the output.
#[derive(Drop)]
pub(crate) struct Rooms {
    journals: Room<JOURNAL_ROOM>,
    rows: Room<ROW_ROOM>,
    output: [u8; OUTPUT_ROOM],
}

impl<const N: usize> Room<N> {
    // A room of zeros.
    fn new(lent: usize) -> Self {
        Room {
            bytes: [0; N],
            lent,
        }
    }

    // Puts bytes into the room from a place on. None where they don't fit.
    fn put(&mut self, place: usize, bytes: &[u8]) -> Option<()> {
        self.bytes
            .get_mut(place..)?
            .get_mut(..bytes.len())?
            .copy_from_slice(bytes);
        Some(())
    }

    // What is lent of the room. None where it has fewer bytes.
    fn lent(&mut self) -> Option<&mut [u8]> {
        let lent = self.lent;
        self.bytes.get_mut(..lent)
    }
}

impl Rooms {
    // Rooms of zeros. The books are lent whole, and no more.
    pub(crate) fn new() -> Self {
        Rooms {
            journals: Room::new(JOURNAL_BOOK),
            rows: Room::new(ROW_BOOK),
            output: [0; OUTPUT_ROOM],
        }
    }

    // Carries out a call on what is lent of the books.
    fn call<W: Write>(&mut self, out: &mut W, call: Call) -> Result<(), Stop> {
        let journals = self.journals.lent().ok_or(Stop::Broken)?;
        let rows = self.rows.lent().ok_or(Stop::Broken)?;
        let mut lent = Lent { journals, rows };
        match call {
            Call::Clear => lent.clear(out)?,
            Call::Open(steps) => lent.open(out, steps)?,
            Call::Append(steps) => lent.append(out, steps)?,
            Call::Rebuild => lent.rebuild(out)?,
            Call::Table(word) => lent.table(out, word)?,
            Call::Count(word) => lent.count(out, word)?,
            Call::Check => lent.check(out)?,
            Call::Row(row) => lent.row(out, row)?,
            Call::Journals => lent.open_journals(out)?,
            Call::Rows => lent.live_rows(out)?,
            Call::List(asked) => lent.page(out, asked, &mut self.output)?,
        }
        Ok(())
    }

    // Writes bytes into the room of a book. None where they don't fit.
    fn write(&mut self, book: Book, place: usize, bytes: &[u8]) -> Option<()> {
        match book {
            Book::Journals => self.journals.put(place, bytes),
            Book::Rows => self.rows.put(place, bytes),
        }
    }

    // Sets how many bytes of a book's room are lent.
    fn lend(&mut self, book: Book, length: usize) {
        match book {
            Book::Journals => self.journals.lent = length,
            Book::Rows => self.rows.lent = length,
        }
    }

    // Carries out a command.
    pub(crate) fn carry_out<W: Write>(
        &mut self,
        out: &mut W,
        command: Command,
    ) -> Result<(), Stop> {
        match command {
            Command::Call(call) => self.call(out, call)?,
            Command::Write { book, place, bytes } => {
                self.write(book, place, bytes).ok_or(Stop::Broken)?;
            }
            Command::Lend { book, length } => self.lend(book, length),
            Command::Fill(byte) => self.output.fill(byte),
            Command::Digest => {
                let (journals, rows) = (digest(&self.journals.bytes), digest(&self.rows.bytes));
                write!(out, " -> {journals} {rows}")?;
            }
        }
        Ok(())
    }
}
