// A line by value: its bytes and how many of them count, and what is put behind it.

ghost use Rattle.std.specs.Prelude.{◌≡◌, [], ◌++◌, ◌∷◌, ◌+◌, ◌≤◌, length, take};
ghost use Rattle.text.specs.Text.{space, line_end};
ghost use Rattle.text.specs.Lines.{line_of, text_of, Longer, line_size};

use itoa::{Buffer, Integer};

// The bytes of a line.
const LINE: usize = 96;

// A line of at most 96 bytes. Those behind its text are 0.
// Kept: an array with a number beside it, both open, since what is promised of a line is an equation for every byte of it.
#[derive(Clone, Copy)]
pub struct Line {
    pub bytes: [u8; LINE],
    pub len: usize,
}

// Kept: no `write!` here, since no clause of std says that it succeeds where there is room, and `first_line` and the others can't fail.
impl Line {
    // A line with nothing in it yet.
    #[tactic(auto, unfolding(crate::specs::Lines::line_of, crate::specs::Lines::text_of))]
    pub(crate) fn new() -> Line
        ensures value { result ≡ line_of [] }
        ensures text { text_of result ≡ [] }
        ensures size { result.len ≡ 0 }
    {
        Line {
            bytes: [0u8; LINE],
            len: 0,
        }
    }

    // The line with more text behind it.
    #[tactic(auto, using(crate::proofs::TextOf::text_put))]
    pub(crate) fn put(mut self, more: &str) -> Line
        requires { self.len + length more.now ≤ line_size }
        ensures longer { Longer self more.now result }
        ensures text { text_of result ≡ text_of self ++ more.now }
    {
        let start = self.len;
        let end = start + more.len();
        self.bytes[start..end].copy_from_slice(more.as_bytes());
        self.len = end;
        self
    }

    // The line with a number in decimal behind it.
    pub(crate) fn number<I: Integer>(self, x: I) -> Line
        requires { self.len + I.MAX_STR_LEN ≤ line_size }
        ensures longer { Longer self (I.text x) result }
        ensures text { text_of result ≡ text_of self ++ I.text x }
        ensures size { result.len ≤ self.len + I.MAX_STR_LEN }
    {
        self.put(Buffer::new().format(x))
    }

    // The line with a space and a number in decimal behind it.
    pub(crate) fn spaced<I: Integer>(self, x: I) -> Line
        requires { self.len + 1 + I.MAX_STR_LEN ≤ line_size }
        ensures longer { Longer self (space ∷ I.text x) result }
        ensures text { text_of result ≡ text_of self ++ space ∷ I.text x }
        ensures size { result.len ≤ self.len + 1 + I.MAX_STR_LEN }
    {
        self.put(" ").number(x)
    }

    // The line with its end behind it.
    pub(crate) fn end(self) -> Line
        requires { self.len + 1 ≤ line_size }
        ensures longer { Longer self (line_end ∷ []) result }
        ensures text { text_of result ≡ text_of self ++ line_end ∷ [] }
    {
        self.put("\n")
    }

    // The bytes of its text.
    #[tactic(auto, using(std::proofs::lemmas::List::take_min))]
    pub fn as_bytes(&self) -> &[u8]
        ensures value { result.now ≡ take self.now.len self.now.bytes }
        ensures fits { length result.now ≤ line_size }
    {
        &self.bytes[..self.len.min(LINE)]
    }
}
