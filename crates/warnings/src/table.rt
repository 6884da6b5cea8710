// The table of arrivals.
ghost use Rattle.std.specs.Prelude.{◌≡◌, IfOk};
ghost use Rattle.offers.specs.Known.{plan_of};
ghost use Rattle.warnings.specs.Arrivals.{Closed, arrivals_in};

use crate::bounds::Bounds;
use crate::closed::is_closed;
use crate::search::candidate;
use crate::widest::widest;
use offers::sound_plan::Plan;
use std::alloc::{AllocError, Global};

// What a table says of a stage.
pub(crate) fn arrivals_in(table: &[Option<Bounds>], stage: u16) -> Option<Bounds>
    ensures { result ≡ arrivals_in table.now stage }
{
    match table.get(usize::from(stage)) {
        Some(arrival) => *arrival,
        None => None,
    }
}

// A table of arrivals that keeps the rules: the one that a search finds, and the widest where the
// search stops before its end.
pub(crate) fn arrivals(heap: Global, plan: &Plan<'_>) -> Result<Vec<Option<Bounds>>, AllocError>
    ensures { IfOk result (λ table. Closed (plan_of plan.now) table.items) }
{
    let found = candidate(heap, plan)?;
    if is_closed(plan, &found) {
        Ok(found)
    } else {
        widest(heap, plan)
    }
}
