// The row book read: a row by value, read from its record and written as one; the walk along the arcs; and where two row
// books first differ.
#![tactic(auto)]

mod difference;
mod row;
mod walk;

pub use difference::{Spot, first_difference};
pub use row::{Row, arc_at, count_at};
pub use walk::{Damaged, walk_to};
