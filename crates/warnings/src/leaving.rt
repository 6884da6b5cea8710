// What the timers show at the most before a stage is left.
ghost use Rattle.std.specs.Prelude.{◌≡◌, ℕ, ◌<◌, length, slice_index};
ghost use Rattle.offers.specs.Known.{plan_of};
ghost use Rattle.warnings.specs.Arrivals.{most_on_leaving};

use crate::bounds::Bounds;
use crate::hold::most_held;
use crate::stage::{ceiling, hold, timers};
use offers::sound_plan::Plan;

// The most seconds that a timer can show before a stage is left.
pub(crate) fn most_on_leaving(plan: &Plan<'_>, stage: u16, arrival: &Bounds, timer: usize) -> u16
    ensures { result ≡ most_on_leaving (plan_of plan.now) stage arrival.now timer }
{
    most_held(
        hold(plan, stage),
        timer,
        arrival.of_timer(timer),
        ceiling(plan, timer),
    )
}

// What each timer can show before a stage is left.
pub(crate) fn leaving(plan: &Plan<'_>, stage: u16, arrival: &Bounds) -> Bounds
    ensures { (x : ℕ) → x < length (plan_of plan.now).ceilings
        → slice_index result.most x ≡ most_on_leaving (plan_of plan.now) stage arrival.now x }
{
    let mut bounds = Bounds::default();
    for timer in 0..timers(plan) {
        bounds.most[timer] = most_on_leaving(plan, stage, arrival, timer);
    }
    bounds
}
