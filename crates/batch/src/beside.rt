// One scheduler beside a batch, with the runs that an identifier of the batch has.
ghost use Rattle.std.specs.Prelude.{◌≡◌, true, is_err};
ghost use Rattle.batch.specs.Batches.{Tallied};
ghost use Rattle.batch.specs.Promised.{ASampledSchedulerComesToItsRow};
ghost use Rattle.batch.specs.Promised.{AnAllowanceThatDoesNotBindCountsEachRunByItself};
ghost use Rattle.batch.specs.Promised.{EveryRunOfABatchTellsATickRun};
ghost use Rattle.batch.specs.Promised.{TheFourCountsOfASchedulerSumToTheRuns};
ghost use Rattle.offers.specs.Checked.{checked};
ghost use Rattle.runs.specs.Tables.{plan_in};

use crate::Limits;
use crate::admission::admit;
use crate::job::Job;
use crate::tally::Tally;
use draws::source::DrawSource;
use offers::sound_plan::Plan;
use plan::handed::Handed;
use rows::refusal::Refusal;
use schedulers::scheduler::Scheduler;

// What one scheduler comes to in the runs that an identifier of a batch has: as many, on handed
// tables and the first rows of a source, with the whole allowance. Where a number is off its
// limits, it is refused before anything is done.
#[tactic(auto, using(crate::proofs::Sums::the_four_counts_of_one_sum, crate::proofs::Alone::one_counts_each_by_itself))]
pub fn runs_by<'p, S: Scheduler, D: DrawSource>(
    handed: Handed<'p>,
    source: &mut D,
    scheduler: &S,
    limits: Limits,
) -> Result<Tally, Refusal>
    ensures tallied { Tallied (plan_in (checked handed.entry)) (D.DrawSource.book source.old)
        (D.DrawSource.coming source.old) limits (S.Scheduler.meaning scheduler.now)
        (D.DrawSource.coming source.new) result }
    ensures a_sampled_scheduler_comes_to_its_row { ASampledSchedulerComesToItsRow
        (plan_in (checked handed.entry)) (D.DrawSource.book source.old)
        (D.DrawSource.coming source.old) limits (S.Scheduler.meaning scheduler.now) }
    ensures the_four_counts_sum_to_the_runs { TheFourCountsOfASchedulerSumToTheRuns
        (plan_in (checked handed.entry)) (D.DrawSource.book source.old)
        (D.DrawSource.coming source.old) limits (S.Scheduler.meaning scheduler.now) }
    ensures runs_count_each_by_itself { AnAllowanceThatDoesNotBindCountsEachRunByItself
        (plan_in (checked handed.entry)) (D.DrawSource.book source.old)
        (D.DrawSource.coming source.old) limits (S.Scheduler.meaning scheduler.now) }
    ensures every_run_of_a_batch_tells_a_tick_run { EveryRunOfABatchTellsATickRun
        (plan_in (checked handed.entry)) (D.DrawSource.book source.old) }
    ensures book_kept { D.DrawSource.book source.new ≡ D.DrawSource.book source.old }
    ensures refused_unchanged { is_err result ≡ true → source.new ≡ source.old }
{
    admit(1, limits, 1)?;
    let job = Job {
        plan: Plan::of_tables(handed),
        limits,
    };
    let done = job.runs_of(source, scheduler, limits.allowance);
    Ok(done.tally)
}
