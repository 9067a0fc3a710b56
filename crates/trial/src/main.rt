// A trial of the books and the list: carries out the script on standard input and prints each line back, with what was
// answered behind it. A script is text, a command a line; the commands stand at the head of tests/trial.py. Lines that are
// empty or begin with `#` are printed and nothing else. A line that is no command ends the run, and it is said.
#![tactic(auto)]

ghost use Rattle.std.specs.Prelude.{◌≤◌, length, IfOk};

mod calls;
mod command;
mod list_page;
mod rooms;
mod row;
mod stop;

use command::Command;
use rooms::Rooms;
use script::number::{MOST, Numbers};
use std::io;
use std::io::{Read, Write};
use stop::Stop;

// The bytes of the longest script and one more.
const LONGEST: usize = 262144;

// Whether a line is there for its reader only: it is empty, or begins with `#`.
fn is_comment(line: &[u8]) -> bool {
    matches!(line, [] | [b'#', ..])
}

// Carries out one line, whose numbers and bytes are put where there is room for them.
fn run_line<W: Write>(
    out: &mut W,
    line: &[u8],
    numbers: &mut Numbers<usize>,
    bytes: &mut Numbers<u8>,
    rooms: &mut Rooms,
) -> Result<(), Stop> {
    out.write_all(line)?;
    if !is_comment(line) {
        let command = Command::read(line, numbers, bytes).ok_or(Stop::Broken)?;
        rooms.carry_out(out, command)?;
    }
    out.write_all(b"\n")?;
    Ok(())
}

// Carries out the lines of a script, up to the first that is none. The room for a line's numbers, 72 KiB, is made once and not for
// each line.
fn run_lines<W: Write>(out: &mut W, script: &[u8], rooms: &mut Rooms) -> Result<(), Stop> {
    let mut numbers = [0; MOST];
    let mut bytes = [0; MOST];
    for line in script.split_inclusive(|byte| *byte == b'\n') {
        let line = line.strip_suffix(b"\n").unwrap_or(line);
        run_line(out, line, &mut numbers, &mut bytes, rooms)?;
    }
    Ok(())
}

// Carries out a script that isn't too long, and says where a line of it is none.
fn run<W: Write>(out: &mut W, script: &[u8], rooms: &mut Rooms) -> io::Result<()> {
    if script.len() == LONGEST {
        return out.write_all(b"the script is too long\n");
    }
    match run_lines(out, script, rooms) {
        Ok(()) => Ok(()),
        Err(Stop::Broken) => out.write_all(b" -> broken\n"),
        Err(Stop::Failed(error)) => Err(error),
    }
}

// Reads until the buffer is full or the input ends. Answers how many bytes there are.
// Kept: the loading program reads likewise (`read_input`), and a crate for these ten lines would be no plainer.
fn read_script<R: Read>(input: &mut R, buffer: &mut [u8]) -> io::Result<usize>
    ensures { IfOk result (λ n. n ≤ length buffer.old) }
{
    let room = buffer.len();
    let mut rest = buffer;
    while !rest.is_empty() {
        let more = input.read(rest)?;
        if more == 0 {
            break;
        }
        rest = &mut rest[more..];
    }
    Ok(room - rest.len())
}

// Runs the script on standard input. A read or a write that fails ends it with that error.
fn main(rt: HostRuntime) -> io::Result<()> {
    let mut script = [0u8; LONGEST];
    let n = read_script(&mut rt.reader(), &mut script)?;
    run(&mut rt.stdout(), &script[..n], &mut Rooms::new())
}
