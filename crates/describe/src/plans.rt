// A plan in words: its timers, then each stage with its hold, changes and outcomes, then the goal.
use crate::lists::joined;
use crate::timers::TimerName;
use plan::handed::Tables;
use rows::reading::{Comparison, Mark, Relation, Subject};
use rows::tables::{ChangeRow, ComparisonRow, OutcomeRow, StageRow, names};
use std::fmt;

#[derive(Clone, Copy)]
struct ShownComparison(Comparison);

impl fmt::Display for ShownComparison {
    fn fmt<W: fmt::Write>(&self, f: &mut fmt::Formatter<W>) -> fmt::Result {
        match self.0.subject {
            Subject::Timer(i) => write!(f, "{}", TimerName(i.into()))?,
            Subject::Lead(i, j) => write!(f, "{} - {}", TimerName(i.into()), TimerName(j.into()))?,
        }
        let sign = match self.0.relation {
            Relation::AtLeast => ">=",
            Relation::Above => ">",
            Relation::AtMost => "<=",
            Relation::Below => "<",
        };
        let constant = self.0.constant;
        write!(f, " {sign} {constant}")
    }
}

// A list of comparisons, all of which have to hold.
#[derive(Clone, Copy)]
struct ShownList<'a>(&'a [ComparisonRow]);

impl<'a> fmt::Display for ShownList<'a> {
    fn fmt<W: fmt::Write>(&self, f: &mut fmt::Formatter<W>) -> fmt::Result {
        if self.0.is_empty() {
            return write!(f, "always");
        }
        let comparisons = self.0.iter().map(|row| ShownComparison(row.reading()));
        joined(f, comparisons, " and ")
    }
}

// The timers that an outcome resets.
#[derive(Clone, Copy)]
struct ShownResets(u16);

impl fmt::Display for ShownResets {
    fn fmt<W: fmt::Write>(&self, f: &mut fmt::Formatter<W>) -> fmt::Result {
        if self.0 == 0 {
            return write!(f, "resets nothing");
        }
        write!(f, "resets")?;
        for timer in (0..16usize).filter(|timer| names(self.0, *timer)) {
            write!(f, " {}", TimerName(timer))?;
        }
        Ok(())
    }
}

// A row of a plan, and its place among the rows of its kind.
#[derive(Clone, Copy)]
struct Placed<'a, Row> {
    plan: Tables<'a>,
    place: usize,
    row: Row,
}

// A change with its guard and, a line each, its outcomes with their odds.
impl<'a> fmt::Display for Placed<'a, ChangeRow> {
    fn fmt<W: fmt::Write>(&self, f: &mut fmt::Formatter<W>) -> fmt::Result {
        let guard = ShownList(self.plan.guard_of(self.row));
        let place = self.place;
        writeln!(f, "  change {place}: when {guard}")?;
        let outcomes = self.plan.outcomes_of(self.row);
        // Saturating, since tables that are shown need not be checked.
        let total = outcomes.iter().fold(0u64, |total, outcome| {
            total.saturating_add(u64::from(outcome.weight))
        });
        for outcome in outcomes {
            let OutcomeRow {
                weight,
                stage,
                resets,
            } = *outcome;
            let resets = ShownResets(resets);
            writeln!(f, "    {weight} of {total}: to stage {stage}, {resets}")?;
        }
        Ok(())
    }
}

// A stage with its mark and hold and, below it, its changes.
impl<'a> fmt::Display for Placed<'a, StageRow> {
    fn fmt<W: fmt::Write>(&self, f: &mut fmt::Formatter<W>) -> fmt::Result {
        let mark = match self.row.marking() {
            Mark::Unmarked => "no mark",
            Mark::Goal => "goal",
            Mark::Avoid => "avoid",
            Mark::Both => "goal and avoid",
        };
        let hold = ShownList(self.plan.hold_of(self.row));
        let place = self.place;
        writeln!(f, "stage {place}: {mark}, holds {hold}")?;
        let plan = self.plan;
        let first = usize::from(self.row.first_change);
        for (i, row) in plan.changes_of(self.row).iter().enumerate() {
            let place = first.saturating_add(i);
            let row = *row;
            write!(f, "{}", Placed { plan, place, row })?;
        }
        Ok(())
    }
}

// A whole plan. The tables hold its rows and no others.
#[derive(Clone, Copy)]
pub struct ShownPlan<'a>(pub Tables<'a>);

impl<'a> fmt::Display for ShownPlan<'a> {
    fn fmt<W: fmt::Write>(&self, f: &mut fmt::Formatter<W>) -> fmt::Result {
        for (i, timer) in self.0.timers.iter().enumerate() {
            let name = TimerName(i);
            let ceiling = timer.ceiling;
            writeln!(f, "timer {name}: up to {ceiling} s")?;
        }
        for (place, row) in self.0.stages.iter().enumerate() {
            let stage = Placed {
                plan: self.0,
                place,
                row: *row,
            };
            write!(f, "{stage}")?;
        }
        for goal in self.0.goals {
            let comparisons = ShownList(self.0.comparisons_of(*goal));
            writeln!(f, "goal: {comparisons}")?;
        }
        Ok(())
    }
}
