// The size of what is lent.

ghost use Rattle.std.specs.Prelude.{◌≡◌, ◌≢◌, length, MatchResult};
ghost use Rattle.books.specs.declared.refused.Refused.TheVariants.{WrongSize};

use crate::refused::Refused;

// The bytes as an array, if they have the size that is asked for.
pub fn sized<const N: usize>(bytes: &[u8]) -> Result<&[u8; N], Refused>
    ensures { MatchResult result (λ b. (length bytes.now ≡ N) × (b.now ≡ bytes.now)) (λ e. (length bytes.now ≢ N) × (e ≡ WrongSize)) }
{
    bytes.try_into().or(Err(Refused::WrongSize))
}
