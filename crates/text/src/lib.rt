// The lines that are printed.
#![tactic(auto)]

mod line;

ghost use Rattle.std.specs.Prelude.{◌≡◌, cond, [], ◌≤◌, length, leb};
ghost use Rattle.text.specs.Text.{first_line, word_line, last_line, refused_entry_line, refused_ask_line};
ghost use Rattle.text.specs.Lines.{line_of, line_size};
ghost use Rattle.records.specs.Sizes.{longest_word};

pub use line::Line;
use records::LONGEST_WORD;

// Kept: each line says itself that it fits (`fits`), as it did: callers read that clause, and `Line` has no fact of its own.

// First line: how many journals there are, and how many live rows.
#[tactic(auto, using(crate::proofs::Spaced::spaced_std), unfolding(crate::specs::Text::first_line))]
pub fn first_line(k: usize, rows: usize) -> Line
    ensures value { result ≡ line_of (first_line k rows) }
    ensures fits { result.len ≤ line_size }
{
    Line::new()
        .put("texts")
        .spaced(k)
        .put(" rows")
        .spaced(rows)
        .end()
}

// A word's line: how long it is, how many journals show it, and which steps it has. A word longer than any that is listed has none.
#[tactic(auto, using(crate::proofs::Decimals::as_std), unfolding(crate::specs::Text::word_line))]
pub fn word_line(count: u8, word: &[u8]) -> Line
    ensures value { result ≡ line_of (cond (leb (length word.now) longest_word) (word_line count word.now) []) }
    ensures fits { result.len ≤ line_size }
{
    if LONGEST_WORD < word.len() {
        return Line::new();
    }
    let mut line = Line::new().number(word.len()).spaced(count);
    for &step in word {
        line = line.spaced(step);
    }
    line.end()
}

// Last line: the number of words.
#[tactic(auto, using(crate::proofs::Spaced::spaced_std), unfolding(crate::specs::Text::last_line))]
pub fn last_line(words: usize) -> Line
    ensures value { result ≡ line_of (last_line words) }
    ensures fits { result.len ≤ line_size }
{
    Line::new().put("end").spaced(words).end()
}

// The line of a refused entry: its number, and which entry it is, from 0.
// Kept: the number and not `books::Refused`, since these lines know no books.
#[tactic(auto, using(crate::proofs::Spaced::spaced_std), unfolding(crate::specs::Text::refused_entry_line))]
pub fn refused_entry_line(number: u8, entry: usize) -> Line
    ensures value { result ≡ line_of (refused_entry_line number entry) }
    ensures fits { result.len ≤ line_size }
{
    Line::new()
        .put("refused")
        .spaced(number)
        .put(" record")
        .spaced(entry)
        .end()
}

// The line of a refused ask.
// Kept: the number, as above.
#[tactic(auto, using(crate::proofs::Spaced::spaced_std), unfolding(crate::specs::Text::refused_ask_line))]
pub fn refused_ask_line(number: u8) -> Line
    ensures value { result ≡ line_of (refused_ask_line number) }
    ensures fits { result.len ≤ line_size }
{
    Line::new().put("refused").spaced(number).put(" ask").end()
}
