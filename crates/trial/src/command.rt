// The commands: the calls of the books, and what is done with the rooms. Each is read from its line.

use script::number;
use script::number::Numbers;

// One of the two books.
#[derive(Clone, Copy)]
pub(crate) enum Book {
    Journals,
    Rows,
}

// A page of the list that is asked for: from the start, or after a word record. It goes into so many bytes as are lent.
// Kept: `after` with the word beside it, since the list is given a word record's bytes from the start too (`list_refusals`).
#[derive(Clone, Copy)]
pub(crate) struct Asked<'a> {
    pub(crate) quorum: usize,
    pub(crate) length: usize,
    pub(crate) after: bool,
    pub(crate) word: &'a [u8],
    pub(crate) lent: usize,
}

// A call of the books, with what it is asked.
#[derive(Clone, Copy)]
pub(crate) enum Call<'a> {
    Clear,
    Open(&'a [u8]),
    Append(&'a [u8]),
    Rebuild,
    Table(&'a [u8]),
    Count(&'a [u8]),
    Check,
    Row(usize),
    Journals,
    Rows,
    List(Asked<'a>),
}

// A command: a call, or bytes into a book at a place, how many bytes of a book are lent, one byte all over the output's room,
// the digests of the books' rooms.
#[derive(Clone, Copy)]
pub(crate) enum Command<'a> {
    Call(Call<'a>),
    Write {
        book: Book,
        place: usize,
        bytes: &'a [u8],
    },
    Lend {
        book: Book,
        length: usize,
    },
    Fill(u8),
    Digest,
}

impl Book {
    // The book of this number.
    fn of(number: usize) -> Option<Self> {
        match number {
            1 => Some(Book::Journals),
            2 => Some(Book::Rows),
            _ => None,
        }
    }
}

// How many numbers of any size stand before the bytes of the command of this name.
fn heads(name: &[u8]) -> usize {
    match name {
        b"row" => 1,
        b"write" | b"lend" => 2,
        b"list" | b"after" => 3,
        _ => 0,
    }
}

impl<'a> Call<'a> {
    // The call of this name, with these numbers and bytes.
    fn of(name: &[u8], asked: &[usize], bytes: &'a [u8]) -> Option<Self> {
        match (name, asked, bytes) {
            (b"clear", [], []) => Some(Call::Clear),
            (b"open", [], steps) => Some(Call::Open(steps)),
            (b"append", [], steps) => Some(Call::Append(steps)),
            (b"rebuild", [], []) => Some(Call::Rebuild),
            (b"table", [], word) => Some(Call::Table(word)),
            (b"count", [], word) => Some(Call::Count(word)),
            (b"check", [], []) => Some(Call::Check),
            (b"row", [row], []) => Some(Call::Row(*row)),
            (b"journals", [], []) => Some(Call::Journals),
            (b"rows", [], []) => Some(Call::Rows),
            (b"list" | b"after", [quorum, length, lent], word) => Some(Call::List(Asked {
                quorum: *quorum,
                length: *length,
                after: matches!(name, b"after"),
                word,
                lent: *lent,
            })),
            _ => None,
        }
    }
}

impl<'a> Command<'a> {
    // The command of this name, with these numbers and bytes.
    fn of(name: &[u8], asked: &[usize], bytes: &'a [u8]) -> Option<Self> {
        match (name, asked, bytes) {
            (b"write", [book, place], bytes) => Some(Command::Write {
                book: Book::of(*book)?,
                place: *place,
                bytes,
            }),
            (b"lend", [book, length], []) => Some(Command::Lend {
                book: Book::of(*book)?,
                length: *length,
            }),
            (b"fill", [], [byte]) => Some(Command::Fill(*byte)),
            (b"digest", [], []) => Some(Command::Digest),
            _ => Some(Command::Call(Call::of(name, asked, bytes)?)),
        }
    }

    // The command of a line, whose numbers and bytes are put where there is room for them. None if the line is no command.
    pub(crate) fn read(
        line: &[u8],
        numbers: &mut Numbers<usize>,
        bytes: &'a mut Numbers<u8>,
    ) -> Option<Self> {
        let mut words = line.split(|byte| *byte == b' ');
        let name = words.next()?;
        let mut n = 0;
        for word in words {
            n = number::read(word, numbers, n)?;
        }
        let (asked, rest) = numbers.get(..n)?.split_at_checked(heads(name))?;
        Command::of(name, asked, number::to_bytes(rest, bytes)?)
    }
}
