// A run of a plan: opening it, the calls that are made of it, and the replay of a list of calls.
#![tactic(auto)]

ghost use Rattle.std.specs.Prelude.{◌<◌, length};
ghost use Rattle.offers.specs.Known.{plan_of};
ghost use Rattle.region.specs.Viewed.{viewed};
ghost use Rattle.runs.specs.Runs.{InBounds};

mod arrival;
pub mod call;
mod look;
mod lookup;
mod offered;
mod opening;
pub mod replay;
mod step;
mod take;

use offers::sound_plan::Plan;
use runs::{Standing, State};

// A run has its plan, and borrows the source of its draws. While it lives the source is reached by
// its calls only; once it is gone the source is the caller's again.
// What a call leaves as it was is said by each call: it holds of the run before and after, and no type of one run can keep it.
#[derive(Drop)]
pub struct Run<'p, 's, D> {
    plan: Plan<'p>,
    source: &'s mut D,
    at: State,
    standing: Standing,
    ghost in_bounds: { ∥ InBounds (plan_of plan) (viewed at.region) ∥₁ },
    ghost a_stage: { at.stage < length (plan_of plan).stages },
}
