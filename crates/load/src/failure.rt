// What may fail while the program reads or prints.

use std::{fmt, io};

// A read or a write that failed, with its error.
#[derive(Drop)]
pub(crate) enum Failure {
    Entries(io::Error),
    Ask(io::Error),
    Printing(io::Error),
}

// What failed, a colon and the error's text.
impl fmt::Display for Failure {
    fn fmt<W: fmt::Write>(&self, f: &mut fmt::Formatter<W>) -> fmt::Result {
        match self {
            Failure::Entries(error) => write!(f, "standard input: {error}"),
            Failure::Ask(error) => write!(f, "ask.bin: {error}"),
            Failure::Printing(error) => write!(f, "standard output: {error}"),
        }
    }
}
