// The warnings, by a table of arrivals.
ghost use Rattle.std.specs.Prelude.{◌≡◌, ◌++◌, length, IfOk, OnOk};
ghost use Rattle.offers.specs.Known.{plan_of};
ghost use Rattle.warnings.specs.Warned.{ceiling_may_end_hold, ceilings_warned};
ghost use Rattle.warnings.specs.Warned.{stage_warned, warned};

use crate::Warning;
use crate::bounds::Bounds;
use crate::hold::is_ended_in_time;
use crate::stage::{ceiling, hold, stages, timers};
use crate::table::arrivals_in;
use crate::ways::has_no_way_out;
use offers::sound_plan::Plan;
use std::alloc::{AllocError, Global};

// Whether a timer's ceiling may end the hold interval of a stage before the hold does.
fn ceiling_may_end_hold(plan: &Plan<'_>, stage: u16, arrival: &Bounds, timer: usize) -> bool
    ensures { result ≡ ceiling_may_end_hold (plan_of plan.now) stage arrival.now timer }
{
    !is_ended_in_time(
        hold(plan, stage),
        timer,
        arrival.of_timer(timer),
        ceiling(plan, timer),
    )
}

// Adds the warnings of a stage's timers.
fn warn_of_ceilings(
    plan: &Plan<'_>,
    stage: u16,
    arrival: &Bounds,
    found: &mut Vec<Warning>,
) -> Result<(), AllocError>
    ensures { OnOk result (found.new.items ≡ found.old.items
        ++ ceilings_warned (plan_of plan.now) stage arrival.now
        (length (plan_of plan.now).ceilings)) }
{
    for timer in 0..timers(plan) {
        if ceiling_may_end_hold(plan, stage, arrival, timer) {
            found.push(Warning::CeilingMayEndHold {
                stage: usize::from(stage),
                timer,
            })?;
        }
    }
    Ok(())
}

// Adds the warnings of a stage.
fn warn_of_stage(
    plan: &Plan<'_>,
    table: &[Option<Bounds>],
    stage: u16,
    found: &mut Vec<Warning>,
) -> Result<(), AllocError>
    ensures { OnOk result (found.new.items ≡ found.old.items
        ++ stage_warned (plan_of plan.now) table.now stage) }
{
    if let Some(arrival) = arrivals_in(table, stage) {
        warn_of_ceilings(plan, stage, &arrival, found)?;
    }
    if has_no_way_out(plan, table, stage) {
        found.push(Warning::NoWayOut {
            stage: usize::from(stage),
        })?;
    }
    Ok(())
}

// The warnings of all stages, in order.
pub(crate) fn warned(
    heap: Global,
    plan: &Plan<'_>,
    table: &[Option<Bounds>],
) -> Result<Vec<Warning>, AllocError>
    ensures { IfOk result (λ found. found.items ≡ warned (plan_of plan.now) table.now) }
{
    let mut found = Vec::new(heap);
    for stage in 0..stages(plan) {
        warn_of_stage(plan, table, stage, &mut found)?;
    }
    Ok(found)
}
