// Reading: standard input in whatever pieces it comes, and the ask file.

ghost use Rattle.std.specs.Prelude.{◌≤◌, length, IfOk};

use std::fs::File;
use std::io;
use std::io::{ErrorKind, Read};
use std::rt::Files;

// Reads until the buffer is full or the input ends. Answers how many bytes were read.
pub(crate) fn read_input<R: Read>(input: &mut R, buffer: &mut [u8]) -> io::Result<usize>
    ensures { IfOk result (λ n. n ≤ length buffer.old) }
{
    let mut n = 0;
    // Kept: a read may bring any number of bytes, and std's calls that read on to the end ask for memory, which this program never does.
    while n < buffer.len() {
        let more = input.read(&mut buffer[n..])?;
        if more == 0 {
            break;
        }
        n += more;
    }
    Ok(n)
}

// Reads the ask file in the current folder; a missing one is as an empty one.
pub(crate) fn read_ask_file(rt: &impl Files, buffer: &mut [u8]) -> io::Result<usize>
    ensures { IfOk result (λ n. n ≤ length buffer.old) }
{
    match File::open(rt, "ask.bin") {
        Ok(mut file) => read_input(&mut file, buffer),
        Err(error) if error.kind() == ErrorKind::NotFound => Ok(0),
        Err(error) => Err(error),
    }
}
