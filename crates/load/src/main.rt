// The loading program: reads journal entries from standard input, then the ask, and prints the words that the quorum shares.
#![tactic(auto)]

mod failure;
mod input;
mod list_page;
mod report;

use failure::Failure;
use feed::RefusedEntry;
use input::{read_ask_file, read_input};
use records::{JOURNAL_BOOK, ROW_BOOK};
use report::{print_line, print_list};
use std::rt::Files;

// The bytes that can matter: 3,216 entries can be taken, and one more is refused.
const ENTRIES: usize = 6434;

// Reads the ask and prints the list that it asks for, or that it is refused.
fn answer(rt: &(impl Files + Print), journals: &[u8], rows: &[u8]) -> Result<(), Failure> {
    let mut file = [0u8; 3];
    let n = read_ask_file(rt, &mut file).map_err(Failure::Ask)?;
    // The count of the empty word is the greatest quorum, and the one that stands where none is asked.
    let most = reading::table_count(rows, &[]).unwrap_or(0);
    let printed = match ask::read_ask(usize::from(most), &file[..n]) {
        Ok(ask) => print_list(rt, journals, rows, ask),
        Err(refused) => print_line(rt, text::refused_ask_line(u8::from(refused))),
    };
    printed.map_err(Failure::Printing)
}

// Loads the entries into books with no journal, and answers the ask if none was refused; one that is refused is printed.
fn load(rt: &(impl Files + Input + Print)) -> Result<(), Failure> {
    let mut entries = [0u8; ENTRIES];
    let n = read_input(&mut rt.reader(), &mut entries).map_err(Failure::Entries)?;
    let mut journals = [0u8; JOURNAL_BOOK];
    let mut rows = [0u8; ROW_BOOK];
    match feed::feed(&mut journals, &mut rows, &entries[..n]) {
        Ok(_) => answer(rt, &journals, &rows),
        Err(RefusedEntry { refused, taken }) => {
            let line = text::refused_entry_line(u8::from(refused), taken);
            print_line(rt, line).map_err(Failure::Printing)
        }
    }
}

// What failed is said on standard error, and the status stays 0.
fn main(rt: HostRuntime) {
    if let Err(failure) = load(&rt) {
        let _ = eprintln!(&rt; "{failure}");
    }
}
