// The text of a page: the lines of its words, one behind the other.

ghost use Rattle.std.specs.Prelude.{◌≡◌, ◌*◌, ◌≤◌, length};
ghost use Rattle.records.specs.WordRecord.{word_of};
ghost use Rattle.next_word.specs.Next.{table_of};
ghost use Rattle.text.specs.Lines.{line_of, line_size};
ghost use Rattle.load.specs.Page.{page_lines};
ghost use Rattle.load.specs.Program.{line_by};

use arrayvec::ArrayVec;
use records::{LONGEST_WORD, WORD_RECORD};
use text::Line;

// How many words a page has, and the bytes of it and of its text: a line has at most 96 bytes.
pub(crate) const PAGE_WORDS: usize = 1024;

pub(crate) const PAGE: usize = PAGE_WORDS * WORD_RECORD;

const TEXT: usize = PAGE_WORDS * 96;

pub(crate) type Text = ArrayVec<u8, TEXT>;

// The line of the word in a word record, with the count that the table answers.
#[tactic(auto, unfolding(next_word::specs::Next::table_of))]
fn record_line(rows: &[u8], word_record: &[u8; WORD_RECORD]) -> Line
    ensures value { result ≡ line_of (line_by (table_of rows.now) (word_of word_record.now)) }
    ensures fits { result.len ≤ line_size }
{
    let n = usize::from(word_record[0]);
    let word = &word_record[1..1 + n.min(LONGEST_WORD)];
    let count = reading::table_count(rows, word).unwrap_or(0);
    text::word_line(count, word)
}

// Makes the text that of the first words of a page, a line each. It is lent, since a call that hands 96 KB back needs them twice on the stack.
pub(crate) fn page_text(rows: &[u8], page: &[u8; PAGE], written: usize, text: &mut Text)
    requires { written ≤ 1024 }
    ensures lines { text.new.items ≡ page_lines rows.now written page.now }
    ensures room { length text.new.items ≤ line_size * written }
{
    text.clear();
    let (word_records, _) = page.as_chunks::<WORD_RECORD>();
    for word_record in &word_records[..written] {
        let line = record_line(rows, word_record);
        text.try_extend_from_slice(line.as_bytes()).unwrap();
    }
}
