// Whether a change can ever be possible in a stage.
ghost use Rattle.std.specs.Prelude.{◌≡◌, map};
ghost use Rattle.offers.specs.Known.{plan_of, rows_of};
ghost use Rattle.runs.specs.Plans.{stage_of};
ghost use Rattle.runs.specs.Tables.{change_of_row, comparison_of_row};
ghost use Rattle.warnings.specs.Arrivals.{most_shown};
ghost use Rattle.warnings.specs.Warned.{change_is_never_possible, contradicts_hold, has_no_way_out};
ghost use Rattle.warnings.specs.Warned.{is_never_allowed, most_on_arrival, too_low};

use crate::bounds::Bounds;
use crate::contradiction::{contradicts_itself, is_ruled_out_by};
use crate::leaving::most_on_leaving;
use crate::stage::{ceiling, changes, hold, is_unmarked};
use crate::table::arrivals_in;
use offers::sound_plan::Plan;
use rows::reading::Relation;
use rows::tables::{ChangeRow, ComparisonRow};

// The most seconds that a timer can show in a stage; its ceiling where no run arrives open.
fn most_shown(plan: &Plan<'_>, table: &[Option<Bounds>], stage: u16, timer: usize) -> u16
    ensures { result ≡ most_shown (plan_of plan.now) table.now stage timer }
{
    match arrivals_in(table, stage) {
        Some(arrival) => most_on_leaving(plan, stage, &arrival, timer),
        None => ceiling(plan, timer),
    }
}

// Whether a timer that shows at most so many seconds never makes a comparison true.
fn is_too_low(row: ComparisonRow, most: u16) -> bool
    ensures { result ≡ too_low most (comparison_of_row row) }
{
    let comparison = row.reading();
    match comparison.relation {
        Relation::AtLeast => most < comparison.constant,
        Relation::Above => most <= comparison.constant,
        Relation::AtMost | Relation::Below => false,
    }
}

// Whether a guard has a comparison that is never true in a stage.
fn is_never_allowed(
    plan: &Plan<'_>,
    table: &[Option<Bounds>],
    stage: u16,
    guard: &[ComparisonRow],
) -> bool
    ensures { result ≡ is_never_allowed (most_shown (plan_of plan.now) table.now stage)
        (map comparison_of_row guard.now) }
{
    guard.iter().any(|row| {
        is_too_low(*row, most_shown(plan, table, stage, usize::from(row.first)))
    })
}

// The most seconds that a timer can show on arrival in a stage; its ceiling where no run arrives
// open.
fn most_on_arrival(plan: &Plan<'_>, table: &[Option<Bounds>], stage: u16, timer: usize) -> u16
    ensures { result ≡ most_on_arrival (plan_of plan.now) table.now stage timer }
{
    match arrivals_in(table, stage) {
        Some(arrival) => arrival.of_timer(timer),
        None => ceiling(plan, timer),
    }
}

// Whether a guard has a comparison that is true neither on arrival in a stage nor while its hold
// allows to wait.
fn contradicts_hold(
    plan: &Plan<'_>,
    table: &[Option<Bounds>],
    stage: u16,
    guard: &[ComparisonRow],
) -> bool
    ensures { result ≡ contradicts_hold (most_on_arrival (plan_of plan.now) table.now stage)
        (stage_of (plan_of plan.now) stage).hold (map comparison_of_row guard.now) }
{
    let hold = hold(plan, stage);
    guard.iter().any(|row| {
        let arrived = most_on_arrival(plan, table, stage, usize::from(row.first));
        is_too_low(*row, arrived) && is_ruled_out_by(hold, *row)
    })
}

// Whether the guard of a change is never true in a stage.
fn is_never_possible(
    plan: &Plan<'_>,
    table: &[Option<Bounds>],
    stage: u16,
    change: ChangeRow,
) -> bool
    ensures { result ≡ change_is_never_possible (plan_of plan.now) table.now stage
        (change_of_row (rows_of plan.now) change) }
{
    let guard = plan.tables().guard_of(change);
    is_never_allowed(plan, table, stage, guard)
        || contradicts_itself(guard)
        || contradicts_hold(plan, table, stage, guard)
}

// Whether no change of a stage that is neither a goal nor to be avoided can ever be possible.
pub(crate) fn has_no_way_out(plan: &Plan<'_>, table: &[Option<Bounds>], stage: u16) -> bool
    ensures { result ≡ has_no_way_out (plan_of plan.now) table.now stage }
{
    is_unmarked(plan, stage)
        && changes(plan, stage)
            .iter()
            .all(|change| is_never_possible(plan, table, stage, *change))
}
