// The table of arrivals that says the least.
ghost use Rattle.std.specs.Prelude.{◌≡◌, ℕ, ◌<◌, length, IfOk, slice_index};
ghost use Rattle.offers.specs.Known.{plan_of};
ghost use Rattle.warnings.specs.Arrivals.{Closed};

use crate::bounds::Bounds;
use crate::stage::{ceiling, is_final, stages, timers};
use offers::sound_plan::Plan;
use std::alloc::{AllocError, Global};

// The ceilings as bounds.
fn ceilings(plan: &Plan<'_>) -> Bounds
    ensures { (x : ℕ) → x < length (plan_of plan.now).ceilings
        → slice_index result.most x ≡ slice_index (plan_of plan.now).ceilings x }
{
    let mut bounds = Bounds::default();
    for timer in 0..timers(plan) {
        bounds.most[timer] = ceiling(plan, timer);
    }
    bounds
}

// The table in which runs arrive in every stage that is not final, where each timer may show its
// ceiling.
pub(crate) fn widest(heap: Global, plan: &Plan<'_>) -> Result<Vec<Option<Bounds>>, AllocError>
    ensures { IfOk result (λ table. Closed (plan_of plan.now) table.items) }
{
    let bounds = ceilings(plan);
    let mut table = Vec::new(heap);
    for stage in 0..stages(plan) {
        let arrival = if is_final(plan, stage) {
            None
        } else {
            Some(bounds)
        };
        table.push(arrival)?;
    }
    Ok(table)
}
