// What all runs of a batch have in common.
ghost use Rattle.std.specs.Prelude.{◌≤◌};

use crate::Limits;
use offers::sound_plan::Plan;

// The plan and the limits of a batch that is not refused.
#[derive(Clone, Copy)]
pub(crate) struct Job<'p> {
    pub(crate) plan: Plan<'p>,
    pub(crate) limits: Limits,
    ghost few_runs: { limits.runs ≤ 10000 },
}
