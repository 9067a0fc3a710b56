// The next word of the list: a word by value that moves, and the search for the next one that the quorum admits.
#![tactic(auto)]

mod search;
mod word;

pub use search::Search;
pub use word::Word;
