// What one entry asks for.

ghost use Rattle.std.specs.Prelude.{◌≡◌};
ghost use Rattle.entries.specs.Entry.{entry_of};

use words::STEP_CODES;

// The step that only opens.
const ONLY_OPEN: u8 = 255;

// What an entry that isn't broken asks for: appending a step to the last journal, opening the next one, or opening it and
// appending a step to it.
#[derive(Clone, Copy, Debug, PartialEq, Eq)]
pub enum Entry {
    Append(u8),
    Open,
    OpenAppend(u8),
}

// What a journal number and a step ask for where k journals are open, or nothing where they are broken.
#[tactic(auto, unfolding(crate::specs::Entry::entry_of))]
pub fn entry_of(k: usize, number: u8, step: u8) -> Option<Entry>
    ensures { result ≡ entry_of k number step }
{
    let n = usize::from(number);
    match step {
        0..STEP_CODES if n == k => Some(Entry::OpenAppend(step)),
        0..STEP_CODES if n + 1 == k => Some(Entry::Append(step)),
        ONLY_OPEN if n == k => Some(Entry::Open),
        _ => None,
    }
}
