// The journal book, the row book and the word record as bytes, and when books are sound: definitions and laws, and the
// sizes of document 01.
#![tactic(auto)]

// Journal book: its bytes, and those of one of its records.
pub const JOURNAL_BOOK: usize = 4096;

pub const JOURNAL_RECORD: usize = 256;

// Row book: its bytes, how many records it has, and the bytes of one of them.
pub const ROW_BOOK: usize = 64000;

pub const ROWS: usize = 1000;

pub const ROW_RECORD: usize = 64;

// In a row record: the first byte of its arcs, and the byte of its count.
pub const ARCS: usize = 16;

pub const COUNT: usize = 48;

// Word record: its bytes, and the most steps of its word.
pub const WORD_RECORD: usize = 16;

pub const LONGEST_WORD: usize = 15;
