// Artefacts of a plan: stages whose hold interval a timer's ceiling may end, and stages without a
// way out.
#![tactic(auto)]

ghost use Rattle.std.specs.Prelude.{◌≡◌, List, Option, IfOk};
ghost use Rattle.offers.specs.Known.{plan_of};
ghost use Rattle.warnings.specs.Arrivals.{Closed};
ghost use Rattle.warnings.specs.Promised.{AStageWarnedAsWithoutAWayOutOffersNothing};
ghost use Rattle.warnings.specs.Promised.{AStageWithoutChangesIsWarned};
ghost use Rattle.warnings.specs.Promised.{WhereNothingIsWarnedAHigherCeilingLetsNoRunStayLonger};
ghost use Rattle.warnings.specs.Promised.{WhereNothingIsWarnedTheHoldEndsBeforeTheCeiling};
ghost use Rattle.warnings.specs.Warned.{warned};
ghost use Rattle.warnings.specs.declared.bounds.Bounds.{Bounds};

pub mod bounds;
mod closed;
mod contradiction;
mod hold;
mod leaving;
mod limit;
mod search;
mod stage;
mod table;
#[cfg(test)]
mod tests;
mod warned;
mod ways;
mod widest;

use crate::table::arrivals;
use crate::warned::warned;
use offers::sound_plan::Plan;
use std::alloc::{AllocError, Global};

// What a planner is warned of: that a timer's ceiling may end the hold interval of a stage before
// its hold does, or that no change can ever be possible in a stage.
#[derive(Clone, Copy, Debug, PartialEq, Eq)]
pub enum Warning {
    CeilingMayEndHold { stage: usize, timer: usize },
    NoWayOut { stage: usize },
}

// The warnings of a plan in the order of its stages: of each stage first the timers whose ceiling
// may end its hold interval, and then whether no change can ever be possible in it.
// A ceiling that is not warned of never ends a hold interval; one that is warned of may not either.
// Any closed table will do: how few false alarms there are is only tested.
pub fn warnings(heap: Global, plan: Plan<'_>) -> Result<Vec<Warning>, AllocError>
    ensures by_arrivals { IfOk result (λ found. (table : List (Option Bounds))
        × Closed (plan_of plan.entry) table
        × (found.items ≡ warned (plan_of plan.entry) table)) }
    ensures where_nothing_is_warned_the_hold_ends_before_the_ceiling { IfOk result
        (λ found. WhereNothingIsWarnedTheHoldEndsBeforeTheCeiling (plan_of plan.entry)
        found.items) }
    ensures where_nothing_is_warned_a_higher_ceiling_lets_no_run_stay_longer { IfOk result
        (λ found. WhereNothingIsWarnedAHigherCeilingLetsNoRunStayLonger (plan_of plan.entry)
        found.items) }
    ensures a_stage_warned_as_without_a_way_out_offers_nothing { IfOk result
        (λ found. AStageWarnedAsWithoutAWayOutOffersNothing (plan_of plan.entry) found.items) }
    ensures a_stage_without_changes_is_warned { IfOk result
        (λ found. AStageWithoutChangesIsWarned (plan_of plan.entry) found.items) }
{
    let table = arrivals(heap, &plan)?;
    warned(heap, &plan, &table)
}
