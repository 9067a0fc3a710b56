// Bytes as they are printed.

use std::fmt;

// From so many equal bytes on they are printed as a repeat.
const MANY: usize = 5;

// Bytes that are printed as a script has them, each behind a space.
#[derive(Clone, Copy)]
pub struct Bytes<'a>(pub &'a [u8]);

// Prints a run of equal bytes.
fn print_run<W: fmt::Write>(f: &mut fmt::Formatter<W>, run: &[u8]) -> fmt::Result {
    if let Some(byte) = run.first()
        && run.len() >= MANY
    {
        return write!(f, " {}*{byte}", run.len());
    }
    for byte in run {
        write!(f, " {byte}")?;
    }
    Ok(())
}

impl fmt::Display for Bytes<'_> {
    fn fmt<W: fmt::Write>(&self, f: &mut fmt::Formatter<W>) -> fmt::Result {
        for run in self.0.chunk_by(|a, b| a == b) {
            print_run(f, run)?;
        }
        Ok(())
    }
}
