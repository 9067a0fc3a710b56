// What a script is made of and what is printed for it, without the books' calls: numbers, bytes, records, a digest.
#![tactic(auto)]

pub mod digest;
pub mod number;
pub mod print;
pub mod record;
