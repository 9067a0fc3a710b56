// What stands at a position of the bytes. An entry that was read carries the position behind it, so nobody else knows how long
// an entry is.

ghost use Rattle.std.specs.Prelude.{◌≡◌};
ghost use Rattle.entries.specs.Reading.{read_at};

// What stands at a position: an entry of two bytes with the position behind it, a lone last byte, or nothing.
#[derive(Clone, Copy, Debug, PartialEq, Eq)]
pub enum Read {
    Entry(u8, u8, usize),
    Lone,
    End,
}

// What stands at a position of the bytes; nothing does behind the last one.
#[tactic(auto, using(crate::proofs::Reading::past_is, crate::proofs::Reading::none_is, crate::proofs::Reading::lone_is, crate::proofs::Reading::entry_is))]
pub fn read_entry(bytes: &[u8], at: usize) -> Read
    ensures { result ≡ read_at bytes.now at }
{
    match bytes.get(at..) {
        None | Some([]) => Read::End,
        Some([_]) => Read::Lone,
        Some([number, step, ..]) => Read::Entry(*number, *step, at + 2),
    }
}
