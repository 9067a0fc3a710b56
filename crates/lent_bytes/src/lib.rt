// Lent bytes: tested against a limit.
#![tactic(auto)]

ghost use Rattle.std.specs.Prelude.{◌≡◌};
ghost use Rattle.records.specs.Bytes.{all_below};

// Whether each byte is below a limit.
pub fn all_below(b: &[u8], limit: u8) -> bool
    ensures { result ≡ all_below limit b.now }
{
    b.iter().all(|&x| x < limit)
}
