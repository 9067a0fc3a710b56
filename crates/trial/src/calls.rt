// The calls of the books: each makes its call on what is lent of them, and prints what that answers.

use books::{Fault, Refused, number_in};
use std::fmt::Display;
use std::io;
use std::io::Write;

// What is lent of the books.
#[derive(Drop)]
pub(crate) struct Lent<'a> {
    pub(crate) journals: &'a mut [u8],
    pub(crate) rows: &'a mut [u8],
}

// Prints the number of a call that says nothing more.
fn print_number<W: Write>(out: &mut W, answer: Result<(), Refused>) -> io::Result<()> {
    write!(out, " -> {}", number_in(&answer))
}

// Prints a number, and behind a text what the call tells: 0 where it is refused.
fn print_told<W: Write, T: Copy + Default + Display>(
    out: &mut W,
    text: &str,
    told: Result<T, Refused>,
) -> io::Result<()> {
    let number = number_in(&told);
    write!(out, " -> {number}, {text}{}", told.unwrap_or_default())
}

impl Lent<'_> {
    pub(crate) fn clear<W: Write>(&mut self, out: &mut W) -> io::Result<()> {
        print_number(out, writing::clear(self.journals, self.rows))
    }

    // Appends steps up to the first that is refused. Answers then what it is refused with, and how many were taken before it.
    fn append_all(&mut self, steps: &[u8]) -> Result<(), (Refused, usize)> {
        for (taken, &step) in steps.iter().enumerate() {
            writing::append(self.journals, self.rows, step).map_err(|refused| (refused, taken))?;
        }
        Ok(())
    }

    pub(crate) fn append<W: Write>(&mut self, out: &mut W, steps: &[u8]) -> io::Result<()> {
        match self.append_all(steps) {
            Ok(()) => write!(out, " -> 0, taken {}", steps.len()),
            Err((refused, taken)) => write!(out, " -> {}, taken {taken}", u8::from(refused)),
        }
    }

    // Opens a journal; where steps are given, it is opened with these.
    pub(crate) fn open<W: Write>(&mut self, out: &mut W, steps: &[u8]) -> io::Result<()> {
        match writing::open(self.journals, self.rows) {
            Ok(()) => self.append(out, steps),
            refused => print_number(out, refused),
        }
    }

    pub(crate) fn rebuild<W: Write>(self, out: &mut W) -> io::Result<()> {
        let Lent { journals, rows } = self;
        print_number(out, writing::rebuild(journals, rows))
    }

    pub(crate) fn table<W: Write>(&self, out: &mut W, word: &[u8]) -> io::Result<()> {
        print_told(out, "count ", reading::table_count(self.rows, word))
    }

    pub(crate) fn count<W: Write>(&self, out: &mut W, word: &[u8]) -> io::Result<()> {
        print_told(out, "count ", reading::journal_count(self.journals, word))
    }

    pub(crate) fn check<W: Write>(&self, out: &mut W) -> io::Result<()> {
        let checked = checking::check(self.journals, self.rows);
        let number = number_in(&checked.map_err(Refused::from));
        let (book, record, byte) = checked.err().map(Fault::place).unwrap_or_default();
        write!(
            out,
            " -> {number}, book {book}, record {record}, byte {byte}"
        )
    }

    pub(crate) fn open_journals<W: Write>(&self, out: &mut W) -> io::Result<()> {
        print_told(out, "", reading::open_journals(self.journals))
    }

    pub(crate) fn live_rows<W: Write>(&self, out: &mut W) -> io::Result<()> {
        print_told(out, "", checking::live_rows(self.journals, self.rows))
    }
}
