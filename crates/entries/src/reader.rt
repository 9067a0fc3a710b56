// The reader: the bytes that were read and a position in them. It gives the entries one by one and moves behind each.

ghost use Rattle.std.specs.Prelude.{◌≤◌, length};

use crate::read::{Read, read_entry};

// The bytes end in half an entry.
#[derive(Clone, Copy, Debug, PartialEq, Eq)]
pub struct LoneByte;

// The bytes read, and where the next entry stands in them.
#[derive(Debug, Drop)]
pub struct Reader<'a> {
    bytes: &'a [u8],
    at: usize,
    ghost within: { at ≤ length bytes.now },
}

impl<'a> Reader<'a> {
    ghost use Rattle.std.specs.Prelude.{◌≡◌};
    ghost use Rattle.entries.specs.Reading.{entries_in, entries_from, entries_left};

    // A reader at the first byte.
    #[tactic(auto, unfolding(crate::specs::Reading::entries_from))]
    pub fn new(bytes: &'a [u8]) -> Reader<'a>
        ensures { entries_left result ≡ entries_in bytes.now }
    {
        Reader::at(bytes, 0)
    }

    // A reader at a position of the bytes, or behind the last byte where that comes first.
    #[tactic(auto, using(std::proofs::lemmas::List::drop_min), unfolding(crate::specs::Reading::entries_from))]
    pub fn at(bytes: &'a [u8], at: usize) -> Reader<'a>
        ensures { entries_left result ≡ entries_from bytes.now at }
    {
        Reader {
            bytes,
            at: at.min(bytes.len()),
        }
    }
}

impl Iterator for Reader<'_> {
    ghost use Rattle.std.specs.Iterator.{YieldsFirst, item_count};
    ghost use Rattle.entries.specs.Reading.{entries_left};

    // A journal number and a step, or a lone last byte.
    type Item = Result<(u8, u8), LoneByte>;

    ghost next_gives = { YieldsFirst entries_left };

    ghost remaining = { item_count entries_left };

    #[tactic(auto, using(crate::proofs::Reading::none_first, crate::proofs::Reading::lone_first, crate::proofs::Reading::entry_first, crate::proofs::Reading::behind_within))]
    fn next(&mut self) -> Option<Result<(u8, u8), LoneByte>> {
        match read_entry(self.bytes, self.at) {
            Read::Entry(number, step, behind) => {
                self.at = behind;
                Some(Ok((number, step)))
            }
            Read::Lone => {
                self.at = self.bytes.len();
                Some(Err(LoneByte))
            }
            Read::End => None,
        }
    }
}
