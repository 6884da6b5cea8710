// What a plan says of a stage, and of its timers.
ghost use Rattle.std.specs.Prelude.{◌≡◌, ◌≤◌, map, length, ◌==◌, slice_index};
ghost use Rattle.offers.specs.Known.{plan_of, rows_of};
ghost use Rattle.runs.specs.Plans.{stage_of};
ghost use Rattle.runs.specs.Tables.{change_of_row, comparison_of_row};
ghost use Rattle.warnings.specs.Arrivals.{is_final};
ghost use Rattle.warnings.specs.Warned.{is_unmarked};

use offers::sound_plan::Plan;
use rows::reading::Mark;
use rows::tables::{ChangeRow, ComparisonRow};

// How many stages a plan has.
pub(crate) fn stages(plan: &Plan<'_>) -> u16
    ensures { result ≡ length (plan_of plan.now).stages }
{
    plan.tables().stages.len() as u16
}

// How many timers a plan has.
pub(crate) fn timers(plan: &Plan<'_>) -> usize
    ensures count { result ≡ length (plan_of plan.now).ceilings }
    ensures few { result ≤ 16 }
{
    plan.tables().timers.len()
}

// The ceiling of a timer; 0 where the plan has no such timer.
pub(crate) fn ceiling(plan: &Plan<'_>, timer: usize) -> u16
    ensures { result ≡ slice_index (plan_of plan.now).ceilings timer }
{
    match plan.tables().timers.get(timer) {
        Some(row) => row.ceiling,
        None => 0,
    }
}

// The comparisons by which a stage holds.
pub(crate) fn hold<'a>(plan: &Plan<'a>, stage: u16) -> &'a [ComparisonRow]
    ensures { map comparison_of_row result.now ≡ (stage_of (plan_of plan.now) stage).hold }
{
    plan.tables().hold_of(plan.stage_row(stage))
}

// The changes of a stage.
pub(crate) fn changes<'a>(plan: &Plan<'a>, stage: u16) -> &'a [ChangeRow]
    ensures { map (change_of_row (rows_of plan.now)) result.now
        ≡ (stage_of (plan_of plan.now) stage).changes }
{
    plan.tables().changes_of(plan.stage_row(stage))
}

// Whether the goal is always on in the stages that are marked for it.
fn is_goal_always_on(plan: &Plan<'_>) -> bool
    ensures { result ≡ (length (plan_of plan.now).goal == 0) }
{
    let tables = plan.tables();
    tables.comparisons_of(tables.goals[0]).is_empty()
}

// Whether every run that arrives in a stage ends there.
pub(crate) fn is_final(plan: &Plan<'_>, stage: u16) -> bool
    ensures { result ≡ is_final (plan_of plan.now) stage }
{
    match plan.stage_row(stage).marking() {
        Mark::Unmarked => false,
        Mark::Goal => is_goal_always_on(plan),
        Mark::Avoid | Mark::Both => true,
    }
}

// Whether a stage is no goal and not to be avoided.
pub(crate) fn is_unmarked(plan: &Plan<'_>, stage: u16) -> bool
    ensures { result ≡ is_unmarked (plan_of plan.now) stage }
{
    matches!(plan.stage_row(stage).marking(), Mark::Unmarked)
}
