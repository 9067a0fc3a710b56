// The ask: a quorum and a length, or what stands for them where the file is empty or missing.
#![tactic(auto)]

ghost use Rattle.std.specs.Prelude.{◌≡◌};
ghost use Rattle.ask.specs.Ask.{ask_of, ask_call, answer_in};

use books::Refused;
use records::LONGEST_WORD;

// The length where the file is empty or missing.
const DEFAULT_LENGTH: usize = 8;

// What the ask says: the quorum and the list length.
#[derive(Clone, Copy, Debug, PartialEq, Eq)]
pub struct Ask {
    pub quorum: usize,
    pub limit: usize,
}

// The ask where k journals are open, refused or not.
#[tactic(auto, unfolding(crate::specs::Ask::ask_of))]
fn ask_of(k: usize, quorum: usize, limit: usize) -> Result<Ask, Refused>
    ensures { answer_in result ≡ ask_of k quorum limit }
{
    if LONGEST_WORD < limit {
        return Err(Refused::WrongLength);
    }
    if quorum < 1 || k < quorum {
        return Err(Refused::WrongQuorum);
    }
    Ok(Ask { quorum, limit })
}

// Reads the ask file where k journals are open.
#[tactic(auto, unfolding(crate::specs::Ask::ask_of, crate::specs::Ask::ask_call))]
pub fn read_ask(k: usize, file: &[u8]) -> Result<Ask, Refused>
    ensures { answer_in result ≡ ask_call k file.now }
{
    match file {
        [] => ask_of(k, k, DEFAULT_LENGTH),
        &[quorum, limit] => ask_of(k, usize::from(quorum), usize::from(limit)),
        _ => Err(Refused::WrongAsk),
    }
}
