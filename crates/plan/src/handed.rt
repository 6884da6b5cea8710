// The six tables of a plan, as a caller hands them.
ghost use Rattle.std.specs.Prelude.{◌≡◌, ◌≤◌, length, take, drop};
ghost use Rattle.plan.specs.Handed.{counted_in, held_by};
ghost use Rattle.rows.specs.Plans.{counts_of, front};

use crate::records::Records;
use rows::section::Counts;
use rows::tables::{
    ChangeRow, ComparisonRow, GoalRow, OutcomeRow, StageRow, TimerRow, first_rows, part,
};

// Tables to be looked at.
#[derive(Clone, Copy)]
pub struct Tables<'a> {
    pub timers: &'a [TimerRow],
    pub comparisons: &'a [ComparisonRow],
    pub stages: &'a [StageRow],
    pub changes: &'a [ChangeRow],
    pub outcomes: &'a [OutcomeRow],
    pub goals: &'a [GoalRow],
}

impl<'a> Records for Tables<'a> {
    ghost held = { held_by };

    fn counts(&self) -> Counts {
        Counts {
            timers: self.timers.len(),
            comparisons: self.comparisons.len(),
            stages: self.stages.len(),
            changes: self.changes.len(),
            outcomes: self.outcomes.len(),
            goals: self.goals.len(),
        }
    }

    fn timer(&self, i: usize) -> TimerRow {
        self.timers[i]
    }

    fn comparison(&self, i: usize) -> ComparisonRow {
        self.comparisons[i]
    }

    fn stage(&self, i: usize) -> StageRow {
        self.stages[i]
    }

    fn change(&self, i: usize) -> ChangeRow {
        self.changes[i]
    }

    fn outcome(&self, i: usize) -> OutcomeRow {
        self.outcomes[i]
    }

    fn goal(&self, i: usize) -> GoalRow {
        self.goals[i]
    }
}

impl<'a> Tables<'a> {
    // The first rows of each table, as many as are counted, as far as there are any.
    pub fn front(self, n: &Counts) -> Tables<'a>
        ensures { held_by result ≡ front n.now (held_by self.entry) }
    {
        Tables {
            timers: first_rows(self.timers, n.timers),
            comparisons: first_rows(self.comparisons, n.comparisons),
            stages: first_rows(self.stages, n.stages),
            changes: first_rows(self.changes, n.changes),
            outcomes: first_rows(self.outcomes, n.outcomes),
            goals: first_rows(self.goals, n.goals),
        }
    }

    // The rows that a row names. Each list is named by two fields of its own, so it has a method of its own.

    // The comparisons that a stage holds by, as far as there are any.
    pub fn hold_of(self, stage: StageRow) -> &'a [ComparisonRow]
        ensures { result.now ≡ take stage.holds (drop stage.first_hold (held_by self.entry).comparisons) }
    {
        part(
            self.comparisons,
            usize::from(stage.first_hold),
            usize::from(stage.holds),
        )
    }

    // The changes of a stage, as far as there are any.
    pub fn changes_of(self, stage: StageRow) -> &'a [ChangeRow]
        ensures { result.now ≡ take stage.changes (drop stage.first_change (held_by self.entry).changes) }
    {
        part(
            self.changes,
            usize::from(stage.first_change),
            usize::from(stage.changes),
        )
    }

    // The comparisons that guard a change, as far as there are any.
    pub fn guard_of(self, change: ChangeRow) -> &'a [ComparisonRow]
        ensures { result.now ≡ take change.guards (drop change.first_guard (held_by self.entry).comparisons) }
    {
        part(
            self.comparisons,
            usize::from(change.first_guard),
            usize::from(change.guards),
        )
    }

    // The outcomes of a change, as far as there are any.
    pub fn outcomes_of(self, change: ChangeRow) -> &'a [OutcomeRow]
        ensures { result.now ≡ take change.outcomes (drop change.first_outcome (held_by self.entry).outcomes) }
    {
        part(
            self.outcomes,
            usize::from(change.first_outcome),
            usize::from(change.outcomes),
        )
    }

    // The comparisons of a goal, as far as there are any.
    pub fn comparisons_of(self, goal: GoalRow) -> &'a [ComparisonRow]
        ensures { result.now ≡ take goal.comparisons (drop goal.first (held_by self.entry).comparisons) }
    {
        part(
            self.comparisons,
            usize::from(goal.first),
            usize::from(goal.comparisons),
        )
    }
}

// Tables as a caller hands them, with how many rows of each are the plan's. The counts stand beside the slices, since a table may be
// larger than its plan, and one that is smaller is refused.
#[derive(Clone, Copy)]
pub struct Handed<'a> {
    pub tables: Tables<'a>,
    pub counts: Counts,
}

impl<'a> Handed<'a> {
    // The rows that are counted, as far as there are any.
    pub fn rows(self) -> Tables<'a>
        ensures { held_by result ≡ counted_in self.entry }
    {
        self.tables.front(&self.counts)
    }
}
