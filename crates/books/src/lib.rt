// The books: what each call on a journal book and a row book promises, as definitions and laws; here stand what a call is refused
// with, where books are wrong, and lent bytes as an array of their size. `reading`, `checking` and `writing` have the calls themselves.
#![tactic(auto)]

mod fault;
mod refused;
mod size;

pub use fault::Fault;
pub use refused::{Refused, number_in};
pub use size::sized;
