// The six tables of a plan, with memory of their own.
ghost use Rattle.std.specs.Prelude.{◌≡◌, Some, IfOk, MatchResult};
ghost use Rattle.rows.specs.Files.{Read, file_fault};
ghost use Rattle.rows.specs.Plans.{PlanRows, counts_of, file_of, front};
ghost use Rattle.rows.specs.Sound.{Fits, Sound};
ghost use Rattle.rows.specs.Verdicts.{refusal_told};
ghost use Rattle.plan.specs.Handed.{held_by};
ghost use Rattle.reader.specs.Gathered.{rows_held};

use crate::read::{TablesMut, fault_in_file, read};
use plan::handed::Tables;
use plan::records::Records;
use rows::fault::Fault;
use rows::refusal::Refusal;
use rows::section::Counts;
use rows::tables::{ChangeRow, ComparisonRow, GoalRow, OutcomeRow, StageRow, TimerRow};
use std::alloc::{AllocError, Global};

// Tables with memory of their own.
#[derive(Drop)]
pub struct OwnedTables {
    pub timers: Vec<TimerRow>,
    pub comparisons: Vec<ComparisonRow>,
    pub stages: Vec<StageRow>,
    pub changes: Vec<ChangeRow>,
    pub outcomes: Vec<OutcomeRow>,
    pub goals: Vec<GoalRow>,
}

impl OwnedTables {
    ghost use Rattle.reader.specs.Owned.{owned_in, zero_rows};

    // Tables of default rows, as many of each kind as are counted.
    pub fn of(heap: Global, counts: Counts) -> Result<OwnedTables, AllocError>
        ensures { IfOk result (λ t. owned_in t ≡ zero_rows counts) }
    {
        Ok(OwnedTables {
            timers: vec![in heap; TimerRow::default(); counts.timers]?,
            comparisons: vec![in heap; ComparisonRow::default(); counts.comparisons]?,
            stages: vec![in heap; StageRow::default(); counts.stages]?,
            changes: vec![in heap; ChangeRow::default(); counts.changes]?,
            outcomes: vec![in heap; OutcomeRow::default(); counts.outcomes]?,
            goals: vec![in heap; GoalRow::default(); counts.goals]?,
        })
    }

    // The same tables, to be looked at.
    pub fn view(&self) -> Tables<'_>
        ensures { held_by result ≡ owned_in self.now }
    {
        Tables {
            timers: &self.timers,
            comparisons: &self.comparisons,
            stages: &self.stages,
            changes: &self.changes,
            outcomes: &self.outcomes,
            goals: &self.goals,
        }
    }

    // Reads a plan file into the tables and answers how many rows each section has.
    // A file that breaks a rule is refused, and leaves every table as it was.
    pub fn read(&mut self, bytes: &[u8]) -> Result<Counts, Refusal>
        ensures answer { MatchResult result
            (λ n. Read bytes.now (owned_in self.old) (owned_in self.new) n)
            (λ e. (refusal_told (file_fault (counts_of (owned_in self.old)) bytes.now) ≡ Some e)
            × (owned_in self.new ≡ owned_in self.old)) }
        ensures the_file_of_every_sound_plan_that_fits_is_read_back { (p : PlanRows)
            → Sound p
            → Fits (counts_of p) (counts_of (owned_in self.old))
            → bytes.now ≡ file_of p
            → MatchResult result (λ n. front n (owned_in self.new) ≡ p) (λ _. ⊥) }
    {
        read_rows(
            bytes,
            &mut self.timers,
            &mut self.comparisons,
            &mut self.stages,
            &mut self.changes,
            &mut self.outcomes,
            &mut self.goals,
        )
    }

    // The first rule that a file breaks where it is read into these tables, and where it does;
    // none where the file is read.
    pub fn fault_in(&self, bytes: &[u8]) -> Option<Fault>
        ensures { result ≡ file_fault (counts_of (owned_in self.now)) bytes.now }
    {
        fault_in_file(bytes, &self.view().counts())
    }

    // Leaves the rows that are counted, as far as there are any.
    pub fn cut(&mut self, counts: &Counts)
        ensures { owned_in self.new ≡ front counts.now (owned_in self.old) }
    {
        self.timers.truncate(counts.timers);
        self.comparisons.truncate(counts.comparisons);
        self.stages.truncate(counts.stages);
        self.changes.truncate(counts.changes);
        self.outcomes.truncate(counts.outcomes);
        self.goals.truncate(counts.goals);
    }
}

// Reads a plan file into tables that are handed one by one. Tried: `TablesMut` made of the six `Vec`s in `OwnedTables::read`. What a `Vec` lends
// to a struct comes back with nothing known of it; what it lends to a call is known.
fn read_rows(
    bytes: &[u8],
    timers: &mut [TimerRow],
    comparisons: &mut [ComparisonRow],
    stages: &mut [StageRow],
    changes: &mut [ChangeRow],
    outcomes: &mut [OutcomeRow],
    goals: &mut [GoalRow],
) -> Result<Counts, Refusal>
    ensures answer { let before =
        rows_held timers.old comparisons.old stages.old changes.old outcomes.old goals.old in
        let later =
        rows_held timers.new comparisons.new stages.new changes.new outcomes.new goals.new in
        MatchResult result
        (λ n. Read bytes.now before later n)
        (λ e. (refusal_told (file_fault (counts_of before) bytes.now) ≡ Some e)
        × (later ≡ before)) }
    ensures the_file_of_every_sound_plan_that_fits_is_read_back { let before =
        rows_held timers.old comparisons.old stages.old changes.old outcomes.old goals.old in
        let later =
        rows_held timers.new comparisons.new stages.new changes.new outcomes.new goals.new in
        (p : PlanRows)
        → Sound p
        → Fits (counts_of p) (counts_of before)
        → bytes.now ≡ file_of p
        → MatchResult result (λ n. front n later ≡ p) (λ _. ⊥) }
{
    let tables = TablesMut {
        timers,
        comparisons,
        stages,
        changes,
        outcomes,
        goals,
    };
    read(bytes, tables)
}
