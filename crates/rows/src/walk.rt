// The walk along the arcs of a row book: where a word leads from row 0, whatever the book holds. What is read at its end
// is another matter.
ghost use Rattle.std.specs.Prelude.{◌≡◌, true, ◌<◌, IfOk, IfSome};
ghost use Rattle.words.specs.Limits.{step_codes};
ghost use Rattle.records.specs.Sizes.{most_rows};
ghost use Rattle.records.specs.Bytes.{all_below};
ghost use Rattle.rows.specs.Walk.{bad_arc, walk_from, walk};

use crate::row::{arc_at, count_at};
use records::{ROW_BOOK, ROWS};
use words::JOURNALS;

// What a walk answers where an arc or a count on its way can't be right.
#[derive(Clone, Copy, PartialEq, Eq, Debug)]
pub struct Damaged;

// Whether an arc t of row r is damage: it doesn't rise, is no row, or ends at a count of 0 or above 16.
fn bad_arc(rows: &[u8; ROW_BOOK], r: usize, t: usize) -> bool
    ensures { result ≡ bad_arc rows.now r t }
{
    if t <= r || ROWS <= t {
        return true;
    }
    let count = usize::from(count_at(rows, t));
    count == 0 || JOURNALS < count
}

// Where the walk from a row under a word of steps ends: in a row, or in none.
#[tactic(auto, using(crate::proofs::Arcs::walk_steps), unfolding(crate::specs::Walk::along))]
fn walk_from(rows: &[u8; ROW_BOOK], row: usize, word: &[u8]) -> Result<Option<usize>, Damaged>
    requires { (row < most_rows) × (all_below step_codes word.now ≡ true) }
    ensures ends { result ≡ walk_from rows.now row word.now }
    ensures in_book { IfOk result (λ end. IfSome end (λ r. r < most_rows)) }
{
    let mut r = row;
    for s in word {
        let t = usize::from(arc_at(rows, r, *s));
        if t == 0 {
            return Ok(None);
        }
        if bad_arc(rows, r, t) {
            return Err(Damaged);
        }
        r = t;
    }
    Ok(Some(r))
}

// Where the walk of a word of steps ends: it starts at row 0, if that row's count is 1 to 16.
#[tactic(auto, unfolding(crate::specs::Walk::walk))]
pub fn walk_to(rows: &[u8; ROW_BOOK], word: &[u8]) -> Result<Option<usize>, Damaged>
    requires { all_below step_codes word.now ≡ true }
    ensures ends { result ≡ walk rows.now word.now }
    ensures in_book { IfOk result (λ end. IfSome end (λ r. r < most_rows)) }
{
    let count = usize::from(count_at(rows, 0));
    if JOURNALS < count {
        return Err(Damaged);
    }
    if count == 0 {
        return Ok(None);
    }
    walk_from(rows, 0, word)
}
