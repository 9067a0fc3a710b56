// The steps of one journal: whether a word is in.

ghost use Rattle.std.specs.Prelude.{◌≡◌};
ghost use Rattle.words.specs.Words.{is_in};

// Whether a word is in a journal: its first step is looked for, then its rest behind that, until no step is left.
pub(crate) fn is_in(word: &[u8], journal: &[u8]) -> bool
    ensures { result ≡ is_in word.now journal.now }
{
    match word {
        [] => true,
        [first, rest @ ..] => match journal.iter().position(|s| s == first) {
            Some(k) => is_in(rest, &journal[k + 1..]),
            None => false,
        },
    }
}
