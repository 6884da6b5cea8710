// Batches: many runs of sampled schedulers, and what they come to. Beside them, the same runs by
// any one scheduler.
#![tactic(auto)]

ghost use Rattle.std.specs.Prelude.{◌≡◌, true, is_err};
ghost use Rattle.batch.specs.Batches.{Batched};
ghost use Rattle.batch.specs.Promised.{ABatchWithoutABindingAllowanceCountsEachRunByItself, EveryRunOfABatchTellsATickRun, TheFourCountsSumToTheRuns};
ghost use Rattle.offers.specs.Checked.{checked};
ghost use Rattle.runs.specs.Tables.{plan_in};

mod admission;
pub mod beside;
mod counting;
mod entering;
mod job;
pub mod ranking;
pub mod tally;
#[cfg(test)]
mod tests;
pub mod watch;

use crate::admission::admit;
use crate::job::Job;
use crate::watch::Watch;
use draws::source::DrawSource;
use logs::Log;
use offers::sound_plan::Plan;
use plan::handed::Handed;
use rows::refusal::Refusal;

// How the runs of one identifier stood.
#[derive(Clone, Copy, Debug, PartialEq, Eq, Default)]
pub struct BatchRow {
    pub identifier: u32,
    pub reached: u32,
    pub failed: u32,
    pub stuck: u32,
    pub unfinished: u32,
}

// How many runs each identifier has, how many steps a run may have, and how many all runs together.
#[derive(Clone, Copy, Debug, PartialEq, Eq)]
pub struct Limits {
    pub runs: u32,
    pub steps: u32,
    pub allowance: u32,
}

// The largest numbers that a batch may have. Each is at least 1.
pub const LARGEST: Limits = Limits {
    runs: 10_000,
    steps: 10_000,
    allowance: 1_000_000_000,
};

// The most identifiers that a batch may have.
pub const MOST_IDENTIFIERS: usize = 1_000;

// Runs every identifier as often as the limits say, on handed tables and the first rows of a
// source, and enters a row for each. Where a number is off its limits, or the log has no room for
// all rows, it is refused before anything is done.
#[tactic(auto, using(crate::proofs::Sums::the_four_counts_sum, crate::proofs::Alone::counts_each_by_itself))]
pub fn batch<'p, D: DrawSource, W: Watch>(
    handed: Handed<'p>,
    source: &mut D,
    identifiers: &[u32],
    limits: Limits,
    log: &mut Log<'_, BatchRow>,
    watch: &mut W,
) -> Result<(), Refusal>
    ensures batched { Batched (plan_in (checked handed.entry)) (D.DrawSource.book source.old)
        (D.DrawSource.coming source.old) limits identifiers.now log.old log.new
        (D.DrawSource.coming source.new) result }
    ensures the_four_counts_sum_to_the_runs { TheFourCountsSumToTheRuns
        (plan_in (checked handed.entry)) (D.DrawSource.book source.old)
        (D.DrawSource.coming source.old) limits identifiers.now }
    ensures a_batch_without_a_binding_allowance_counts_each_run_by_itself { ABatchWithoutABindingAllowanceCountsEachRunByItself
        (plan_in (checked handed.entry)) (D.DrawSource.book source.old)
        (D.DrawSource.coming source.old) limits identifiers.now }
    ensures every_run_of_a_batch_tells_a_tick_run { EveryRunOfABatchTellsATickRun
        (plan_in (checked handed.entry)) (D.DrawSource.book source.old) }
    ensures book_kept { D.DrawSource.book source.new ≡ D.DrawSource.book source.old }
    ensures refused_unchanged { is_err result ≡ true → source.new ≡ source.old }
    ensures same_rows { log.new.rows.ghost_name ≡ log.old.rows.ghost_name }
{
    admit(identifiers.len(), limits, log.room())?;
    let job = Job {
        plan: Plan::of_tables(handed),
        limits,
    };
    job.enter_rows(source, identifiers, log, watch);
    Ok(())
}
