// What a checked plan says of a stage, and of its goal.
ghost use Rattle.std.specs.Prelude.{◌≡◌, ◌<◌, ◌≤◌, map, length};
ghost use Rattle.offers.specs.Known.{plan_of, rows_of};
ghost use Rattle.runs.specs.Plans.{stage_of};
ghost use Rattle.runs.specs.Tables.{comparison_of_row, stage_of_row};

use crate::sound_plan::Plan;
use rows::reading::Mark;
use rows::tables::{ComparisonRow, StageRow};

impl<'a> Plan<'a> {
    // The row of a stage, and a blank one where the plan has no such stage.
    pub fn stage_row(&self, stage: u16) -> StageRow
        ensures row { stage_of_row (rows_of self.now) result ≡ stage_of (plan_of self.now) stage }
        ensures marked { result.mark < 4 }
        ensures few { result.changes ≤ 128 }
    {
        self.rows
            .stages
            .get(usize::from(stage))
            .copied()
            .unwrap_or_default()
    }

    // The comparisons by which a stage holds.
    pub(crate) fn hold(&self, stage: u16) -> &'a [ComparisonRow]
        ensures { map comparison_of_row result.now ≡ (stage_of (plan_of self.now) stage).hold }
    {
        self.rows.hold_of(self.stage_row(stage))
    }

    // Whether the goal counts in a stage.
    pub(crate) fn is_goal(&self, stage: u16) -> bool
        ensures { result ≡ (stage_of (plan_of self.now) stage).goal }
    {
        matches!(self.stage_row(stage).marking(), Mark::Goal | Mark::Both)
    }

    // Whether a stage is to be avoided.
    pub fn is_avoid(&self, stage: u16) -> bool
        ensures { result ≡ (stage_of (plan_of self.now) stage).avoid }
    {
        matches!(self.stage_row(stage).marking(), Mark::Avoid | Mark::Both)
    }

    // The comparisons of the goal.
    pub(crate) fn goal(&self) -> &'a [ComparisonRow]
        ensures { map comparison_of_row result.now ≡ (plan_of self.now).goal }
    {
        self.rows.comparisons_of(self.rows.goals[0])
    }
}
