// Journal entries as bytes: reading them one by one, and what each asks for. It knows no books.
#![tactic(auto)]

mod entry;
mod read;
mod reader;

pub use entry::{Entry, entry_of};
pub use read::{Read, read_entry};
pub use reader::{LoneByte, Reader};
