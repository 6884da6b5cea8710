// Reading a plan file into handed tables.
ghost use Rattle.std.specs.Prelude.{◌≡◌, length, Some, MatchResult};
ghost use Rattle.rows.specs.Files.{Read, file_fault};
ghost use Rattle.rows.specs.Plans.{PlanRows, counts_of, file_of, front};
ghost use Rattle.rows.specs.Sound.{Fits, Sound};
ghost use Rattle.rows.specs.Verdicts.{refusal_told};
ghost use Rattle.plan.specs.Handed.{held_by};
ghost use Rattle.reader.specs.Gathered.{gathered, left_in};

use crate::fill::fill;
use crate::parts::sound_parts;
use plan::handed::Tables;
use plan::records::Records;
use rows::fault::Fault;
use rows::refusal::Refusal;
use rows::section::Counts;
use rows::tables::{ChangeRow, ComparisonRow, GoalRow, OutcomeRow, StageRow, TimerRow};

// Tables to be filled, each with room for some rows.
#[derive(Drop)]
pub struct TablesMut<'a> {
    pub timers: &'a mut [TimerRow],
    pub comparisons: &'a mut [ComparisonRow],
    pub stages: &'a mut [StageRow],
    pub changes: &'a mut [ChangeRow],
    pub outcomes: &'a mut [OutcomeRow],
    pub goals: &'a mut [GoalRow],
}

impl<'a> TablesMut<'a> {
    // The same tables, to be looked at.
    pub fn view(&self) -> Tables<'_>
        ensures { held_by result ≡ gathered self.now }
    {
        Tables {
            timers: self.timers,
            comparisons: self.comparisons,
            stages: self.stages,
            changes: self.changes,
            outcomes: self.outcomes,
            goals: self.goals,
        }
    }
}

// Reads a plan file into handed tables and answers how many rows each section has.
// A file that breaks a rule is refused, and leaves every table as it was.
pub fn read(bytes: &[u8], tables: TablesMut<'_>) -> Result<Counts, Refusal>
    ensures answer { MatchResult result
        (λ n. Read bytes.now (gathered tables.entry) (left_in tables.exit) n)
        (λ e. (refusal_told (file_fault (counts_of (gathered tables.entry)) bytes.now) ≡ Some e)
        × (left_in tables.exit ≡ gathered tables.entry)) }
    ensures the_file_of_every_sound_plan_that_fits_is_read_back { (p : PlanRows)
        → Sound p
        → Fits (counts_of p) (counts_of (gathered tables.entry))
        → bytes.now ≡ file_of p
        → MatchResult result (λ n. front n (left_in tables.exit) ≡ p) (λ _. ⊥) }
{
    let parts = sound_parts(&tables.view().counts(), bytes).map_err(|fault| fault.refusal)?;
    let counts = parts.counts();
    fill(parts.timers.bytes(), tables.timers);
    fill(parts.comparisons.bytes(), tables.comparisons);
    fill(parts.stages.bytes(), tables.stages);
    fill(parts.changes.bytes(), tables.changes);
    fill(parts.outcomes.bytes(), tables.outcomes);
    fill(parts.goals.bytes(), tables.goals);
    Ok(counts)
}

// The first rule that a file breaks where it is read into tables of some room, and where it does,
// so that a planner can mend it; none where the file is read.
pub fn fault_in_file(bytes: &[u8], rooms: &Counts) -> Option<Fault>
    ensures { result ≡ file_fault rooms.now bytes.now }
{
    sound_parts(rooms, bytes).err()
}
