// Words, journals, places, states, the picture, dictionary order and the list by quorum: definitions and laws, and the
// numbers of document 01 that they speak of.
#![tactic(auto)]

// A step is a code below this.
pub const STEP_CODES: u8 = 16;

// The most steps that a journal has.
pub const LONGEST_JOURNAL: usize = 200;

// The most journals that there are.
pub const JOURNALS: usize = 16;

// The mark of a place that is lost.
pub const LOST: u8 = 255;
