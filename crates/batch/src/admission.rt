// The limits of a batch.
ghost use Rattle.std.specs.Prelude.{◌≡◌, Some, None, MatchResult};
ghost use Rattle.batch.specs.Batches.{refusal_of, within};

use crate::{LARGEST, Limits, MOST_IDENTIFIERS};
use rows::refusal::Refusal;

// Whether every number of a batch is within its limits.
fn within(identifiers: usize, limits: Limits) -> bool
    ensures { result ≡ within identifiers limits }
{
    (1..=MOST_IDENTIFIERS).contains(&identifiers)
        && (1..=LARGEST.runs).contains(&limits.runs)
        && (1..=LARGEST.steps).contains(&limits.steps)
        && (1..=LARGEST.allowance).contains(&limits.allowance)
}

// Refuses a batch with a number off its limits, and one whose rows do not fit.
pub(crate) fn admit(identifiers: usize, limits: Limits, room: usize) -> Result<(), Refusal>
    ensures { MatchResult result (λ _. refusal_of identifiers limits room ≡ None) (λ e. refusal_of identifiers limits room ≡ Some e) }
{
    if !within(identifiers, limits) {
        return Err(Refusal::BatchOffLimits);
    }
    if room < identifiers {
        return Err(Refusal::LogFull);
    }
    Ok(())
}
