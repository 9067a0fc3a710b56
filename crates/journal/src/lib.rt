// What is read off one journal record and off the journal book, the form, the steps of one journal and the whole book, and
// the book with a journal or a step more.
#![tactic(auto)]

mod book;
mod form;
mod steps;
mod writing;

pub use book::{JournalBook, last_journal, open_count};
pub use form::steps_form;
