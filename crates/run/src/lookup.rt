// The changes of a stage.
ghost use Rattle.std.specs.Prelude.{◌≡◌, true, false, MatchOption};
ghost use Rattle.offers.specs.Known.{plan_of, rows_of};
ghost use Rattle.runs.specs.Plans.{change_of};
ghost use Rattle.runs.specs.Runs.{is_of_stage};
ghost use Rattle.runs.specs.Tables.{change_of_row};

use offers::sound_plan::Plan;
use rows::tables::ChangeRow;

// The row of a change, if it is one of the stage.
// No method of `Plan`, which is another crate's type; only a run asks.
pub(crate) fn change_of(plan: &Plan<'_>, stage: u16, change: u16) -> Option<ChangeRow>
    ensures { MatchOption result (is_of_stage (plan_of plan.now) stage change ≡ false) (λ row. (is_of_stage (plan_of plan.now) stage change ≡ true) × (change_of_row (rows_of plan.now) row ≡ change_of (plan_of plan.now) stage change)) }
{
    let row = plan.stage_row(stage);
    let changes = plan.tables().changes_of(row);
    let place = change.checked_sub(row.first_change)?;
    changes.get(usize::from(place)).copied()
}
