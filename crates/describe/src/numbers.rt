// Numbers in words.
ghost use Rattle.std.specs.Prelude.{MatchOption};
ghost use Rattle.describe.specs.Numbers.{Decimal};
ghost use Rattle.describe.specs.Words.{Writes};

// The number that a word writes in decimal digits alone, if there is one of 32 bits.
pub fn number(word: &str) -> Option<u32>
    ensures { MatchOption result (Decimal word.now → ⊥) (λ n. Writes word.now n) }
{
    match word.as_bytes() {
        [b'+', ..] => None,
        _ => word.parse::<u32>().ok(),
    }
}
