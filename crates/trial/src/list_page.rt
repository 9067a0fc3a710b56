// A page of the list: the call, and what is printed of it.

use crate::calls::Lent;
use crate::command::Asked;
use crate::stop::Stop;
use books::{Refused, number_in};
use page::Page;
use records::WORD_RECORD;
use script::digest::digest;
use script::record::Words;
use std::io;
use std::io::Write;

// Pages of up to so many words are printed word by word.
const FEW: usize = 8;

// Prints what the list answers, the digest of what it was lent with the record behind, and the words that it wrote if they are
// few and fit there. A refusal says that none was written and none remains.
fn print_listed<W: Write>(
    out: &mut W,
    listed: Result<Page, Refused>,
    room: &[u8],
) -> io::Result<()> {
    let number = number_in(&listed);
    let (written, more) = listed
        .map(|Page { written, more }| (written, more))
        .unwrap_or_default();
    write!(
        out,
        " -> {number}, written {written}, more {}, digest {}",
        u8::from(more),
        digest(room)
    )?;
    if written <= FEW
        && let Some(words) = room.get(..WORD_RECORD * written)
    {
        write!(out, "{}", Words(words))?;
    }
    Ok(())
}

impl Lent<'_> {
    // Fetches a page into the first bytes of the output's room and prints it. The line is broken where the room has fewer, or no
    // word record behind them.
    pub(crate) fn page<W: Write>(
        &self,
        out: &mut W,
        asked: Asked,
        room: &mut [u8],
    ) -> Result<(), Stop> {
        let end = asked.lent.checked_add(WORD_RECORD).ok_or(Stop::Broken)?;
        let shown = room.get_mut(..end).ok_or(Stop::Broken)?;
        let listed = list::list(
            self.journals,
            self.rows,
            asked.quorum,
            asked.length,
            asked.after,
            asked.word,
            &mut shown[..asked.lent],
        );
        print_listed(out, listed, shown)?;
        Ok(())
    }
}
