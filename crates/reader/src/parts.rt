// A plan file taken apart into its sections.
ghost use Rattle.std.specs.Prelude.{◌≡◌, Some, MatchResult};
ghost use Rattle.rows.specs.Files.{file_fault, layout_fault};
ghost use Rattle.rows.specs.Sections.{section_names};
ghost use Rattle.reader.specs.Split.{Passed, Split, plan_of};

use crate::bytes::{count, nth_row};
use crate::section::{Section, cut};
use plan::check::fault_in_rows;
use plan::records::Records;
use rows::fault::{Fault, Where};
use rows::refusal::Refusal;
use rows::section::{Counts, SectionName};
use rows::tables::{ChangeRow, ComparisonRow, GoalRow, OutcomeRow, StageRow, TimerRow};

// The six sections of one file.
#[derive(Clone, Copy)]
pub(crate) struct Parts<'a> {
    pub timers: Section<'a>,
    pub comparisons: Section<'a>,
    pub stages: Section<'a>,
    pub changes: Section<'a>,
    pub outcomes: Section<'a>,
    pub goals: Section<'a>,
}

// Takes a file apart, or says which section breaks a rule, or that bytes follow the last.
fn split<'a>(rooms: &Counts, bytes: &'a [u8]) -> Result<Parts<'a>, Fault>
    ensures { MatchResult result
        (λ p. Split rooms.now bytes.now p)
        (λ f. layout_fault rooms.now section_names bytes.now ≡ Some f) }
{
    let (timers, rest) = cut(SectionName::Timers, rooms, bytes)?;
    let (comparisons, rest) = cut(SectionName::Comparisons, rooms, rest)?;
    let (stages, rest) = cut(SectionName::Stages, rooms, rest)?;
    let (changes, rest) = cut(SectionName::Changes, rooms, rest)?;
    let (outcomes, rest) = cut(SectionName::Outcomes, rooms, rest)?;
    let (goals, rest) = cut(SectionName::Goal, rooms, rest)?;
    if !rest.is_empty() {
        return Err(Fault {
            refusal: Refusal::BytesFollow,
            at: Where::File,
        });
    }
    Ok(Parts {
        timers,
        comparisons,
        stages,
        changes,
        outcomes,
        goals,
    })
}

impl<'a> Records for Parts<'a> {
    ghost held = { plan_of };

    fn counts(&self) -> Counts {
        Counts {
            timers: count::<TimerRow>(self.timers.bytes()),
            comparisons: count::<ComparisonRow>(self.comparisons.bytes()),
            stages: count::<StageRow>(self.stages.bytes()),
            changes: count::<ChangeRow>(self.changes.bytes()),
            outcomes: count::<OutcomeRow>(self.outcomes.bytes()),
            goals: count::<GoalRow>(self.goals.bytes()),
        }
    }

    fn timer(&self, i: usize) -> TimerRow {
        nth_row(self.timers.bytes(), i)
    }

    fn comparison(&self, i: usize) -> ComparisonRow {
        nth_row(self.comparisons.bytes(), i)
    }

    fn stage(&self, i: usize) -> StageRow {
        nth_row(self.stages.bytes(), i)
    }

    fn change(&self, i: usize) -> ChangeRow {
        nth_row(self.changes.bytes(), i)
    }

    fn outcome(&self, i: usize) -> OutcomeRow {
        nth_row(self.outcomes.bytes(), i)
    }

    fn goal(&self, i: usize) -> GoalRow {
        nth_row(self.goals.bytes(), i)
    }
}

// The parts of a file that breaks no rule, or the first rule that it breaks.
pub(crate) fn sound_parts<'a>(rooms: &Counts, bytes: &'a [u8]) -> Result<Parts<'a>, Fault>
    ensures { MatchResult result
        (λ p. Passed rooms.now bytes.now p)
        (λ f. file_fault rooms.now bytes.now ≡ Some f) }
{
    let parts = split(rooms, bytes)?;
    match fault_in_rows(&parts) {
        None => Ok(parts),
        Some(fault) => Err(fault),
    }
}
