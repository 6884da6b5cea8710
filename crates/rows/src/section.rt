// The six sections of a plan file, and one number for each of them.
ghost use Rattle.std.specs.Prelude.{◌≡◌, Some};
ghost use Rattle.rows.specs.Sections.{count_of, largest, least_of, most_of, size_of, text_of};

use crate::tables::{ChangeRow, ComparisonRow, GoalRow, OutcomeRow, StageRow, TimerRow};
use std::fmt;

#[derive(Clone, Copy, Debug, PartialEq, Eq)]
pub enum SectionName {
    Timers,
    Comparisons,
    Stages,
    Changes,
    Outcomes,
    Goal,
}

// The sections in the order of the file.
pub const SECTIONS: [SectionName; 6] = [
    SectionName::Timers,
    SectionName::Comparisons,
    SectionName::Stages,
    SectionName::Changes,
    SectionName::Outcomes,
    SectionName::Goal,
];

// How many rows of each section: those of a plan, or those a table has room for.
#[derive(Clone, Copy, Debug, PartialEq, Eq, Default)]
pub struct Counts {
    pub timers: usize,
    pub comparisons: usize,
    pub stages: usize,
    pub changes: usize,
    pub outcomes: usize,
    pub goals: usize,
}

impl Counts {
    // As many rows of each section as a plan may have.
    pub fn largest() -> Counts
        ensures each_section { (section : SectionName) → count_of result section ≡ most_of section }
        ensures all_sections { result ≡ largest }
    {
        Counts {
            timers: SectionName::Timers.most(),
            comparisons: SectionName::Comparisons.most(),
            stages: SectionName::Stages.most(),
            changes: SectionName::Changes.most(),
            outcomes: SectionName::Outcomes.most(),
            goals: SectionName::Goal.most(),
        }
    }

    pub fn of(&self, section: SectionName) -> usize
        ensures { result ≡ count_of self.now section }
    {
        match section {
            SectionName::Timers => self.timers,
            SectionName::Comparisons => self.comparisons,
            SectionName::Stages => self.stages,
            SectionName::Changes => self.changes,
            SectionName::Outcomes => self.outcomes,
            SectionName::Goal => self.goals,
        }
    }
}

impl SectionName {
    // The bytes of one record. Each number has a match of its own, since each rule names one of them alone.
    pub fn size(self) -> usize
        ensures { result ≡ size_of self }
    {
        match self {
            SectionName::Timers => TimerRow::SIZE,
            SectionName::Comparisons => ComparisonRow::SIZE,
            SectionName::Stages => StageRow::SIZE,
            SectionName::Changes => ChangeRow::SIZE,
            SectionName::Outcomes => OutcomeRow::SIZE,
            SectionName::Goal => GoalRow::SIZE,
        }
    }

    // The fewest records that the section may have.
    pub fn least(self) -> usize
        ensures { result ≡ least_of self }
    {
        match self {
            SectionName::Timers => 1,
            SectionName::Comparisons => 0,
            SectionName::Stages => 1,
            SectionName::Changes => 0,
            SectionName::Outcomes => 0,
            SectionName::Goal => 1,
        }
    }

    // The most records that the section may have.
    pub fn most(self) -> usize
        ensures { result ≡ most_of self }
    {
        match self {
            SectionName::Timers => 16,
            SectionName::Comparisons => 4096,
            SectionName::Stages => 256,
            SectionName::Changes => 1024,
            SectionName::Outcomes => 4096,
            SectionName::Goal => 1,
        }
    }
}

// The name of a section, as a planner is told it.
impl fmt::Display for SectionName {
    ghost output = { λ section. Some (text_of section) };

    fn fmt<W: fmt::Write>(&self, f: &mut fmt::Formatter<W>) -> fmt::Result {
        f.write_str(match self {
            SectionName::Timers => "timers",
            SectionName::Comparisons => "comparisons",
            SectionName::Stages => "stages",
            SectionName::Changes => "changes",
            SectionName::Outcomes => "outcomes",
            SectionName::Goal => "goal",
        })
    }
}
