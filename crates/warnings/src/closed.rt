// Whether a table of arrivals keeps its rules.
ghost use Rattle.std.specs.Prelude.{ℕ, ◌<◌, map, length, IsTrue, slice_index};
ghost use Rattle.offers.specs.Known.{plan_of, rows_of};
ghost use Rattle.region.specs.Resetting.{marks};
ghost use Rattle.runs.specs.Tables.{change_of_row, outcome_of_row};
ghost use Rattle.warnings.specs.Arrivals.{ChangeFollowed, ChangesFollowed, OutcomeFollowed};
ghost use Rattle.warnings.specs.Arrivals.{Closed, Covers, StageClosed};

use crate::bounds::Bounds;
use crate::leaving::leaving;
use crate::stage::{changes, is_final, stages, timers};
use crate::table::arrivals_in;
use offers::sound_plan::Plan;
use rows::tables::{ChangeRow, OutcomeRow, names};

// Whether the timers that an outcome leaves alone show no more before it than an arrival's bounds.
fn is_covered(timers: usize, leaving: &Bounds, outcome: OutcomeRow, arrival: &Bounds) -> bool
    ensures { IsTrue result → Covers timers (slice_index leaving.now.most)
        (marks timers outcome.resets) arrival.now }
{
    for timer in 0..timers {
        if !names(outcome.resets, timer) && leaving.of_timer(timer) > arrival.of_timer(timer) {
            return false;
        }
    }
    true
}

// Whether an outcome leads to a final stage, or to one whose bounds cover what it leaves.
fn is_followed(
    plan: &Plan<'_>,
    table: &[Option<Bounds>],
    leaving: &Bounds,
    outcome: OutcomeRow,
) -> bool
    ensures { IsTrue result → OutcomeFollowed (plan_of plan.now) table.now
        (slice_index leaving.now.most) (outcome_of_row (rows_of plan.now) outcome) }
{
    match arrivals_in(table, outcome.stage) {
        Some(arrival) => is_covered(timers(plan), leaving, outcome, &arrival),
        None => is_final(plan, outcome.stage),
    }
}

// Whether each outcome of a change is followed.
fn is_change_followed(
    plan: &Plan<'_>,
    table: &[Option<Bounds>],
    leaving: &Bounds,
    change: ChangeRow,
) -> bool
    ensures { IsTrue result → ChangeFollowed (plan_of plan.now) table.now
        (slice_index leaving.now.most) (change_of_row (rows_of plan.now) change) }
{
    for outcome in plan.tables().outcomes_of(change) {
        if !is_followed(plan, table, leaving, *outcome) {
            return false;
        }
    }
    true
}

// Whether each of some changes is followed.
fn are_changes_followed(
    plan: &Plan<'_>,
    table: &[Option<Bounds>],
    leaving: &Bounds,
    changes: &[ChangeRow],
) -> bool
    ensures { IsTrue result → ChangesFollowed (plan_of plan.now) table.now
        (slice_index leaving.now.most) (map (change_of_row (rows_of plan.now)) changes.now) }
{
    for change in changes {
        if !is_change_followed(plan, table, leaving, *change) {
            return false;
        }
    }
    true
}

// Whether a table keeps the rules of a stage.
fn is_stage_closed(plan: &Plan<'_>, table: &[Option<Bounds>], stage: u16) -> bool
    ensures { IsTrue result → StageClosed (plan_of plan.now) table.now stage }
{
    match arrivals_in(table, stage) {
        None => true,
        Some(arrival) => {
            !is_final(plan, stage)
                && are_changes_followed(
                    plan,
                    table,
                    &leaving(plan, stage, &arrival),
                    changes(plan, stage),
                )
        }
    }
}

// Whether a table keeps the rules of every stage.
fn are_stages_closed(plan: &Plan<'_>, table: &[Option<Bounds>]) -> bool
    ensures { IsTrue result → (i : ℕ) → i < length (plan_of plan.now).stages
        → StageClosed (plan_of plan.now) table.now i }
{
    for stage in 0..stages(plan) {
        if !is_stage_closed(plan, table, stage) {
            return false;
        }
    }
    true
}

// Whether a table keeps all rules of arrivals.
pub(crate) fn is_closed(plan: &Plan<'_>, table: &[Option<Bounds>]) -> bool
    ensures { IsTrue result → Closed (plan_of plan.now) table.now }
{
    table.len() == usize::from(stages(plan))
        && (is_final(plan, 0) || arrivals_in(table, 0).is_some())
        && are_stages_closed(plan, table)
}
