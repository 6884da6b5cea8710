// How a run stands on arrival in a stage.
ghost use Rattle.std.specs.Prelude.{◌≡◌};
ghost use Rattle.offers.specs.Known.{plan_of};
ghost use Rattle.region.specs.Viewed.{viewed};
ghost use Rattle.runs.specs.Runs.{judged};

use offers::sound_plan::Plan;
use runs::{Standing, State};

// At its goal if the goal is on, else failed in a stage to avoid, else open.
// No method of `Plan`, which is another crate's type; only a run asks.
pub(crate) fn judged(plan: &Plan<'_>, at: &State) -> Standing
    ensures { result ≡ judged (plan_of plan.now) at.now.stage (viewed at.now.region) }
{
    if plan.goal_by(at, 0) {
        Standing::Reached
    } else if plan.is_avoid(at.stage) {
        Standing::Failed
    } else {
        Standing::Open
    }
}
