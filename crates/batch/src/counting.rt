// The runs of one scheduler.
ghost use Rattle.std.specs.Prelude.{◌≡◌, ◌<◌, ◌≤◌};
ghost use Rattle.batch.specs.Batches.{first_runs, none_yet, one_more, stepped};
ghost use Rattle.batch.specs.Progresses.{progress_of};
ghost use Rattle.batch.specs.Promised.{runs_in};
ghost use Rattle.offers.specs.Known.{plan_of};
ghost use Rattle.run.specs.Views.{KeepsPlanAndSource, plan_for, view_of};

use crate::job::Job;
use crate::tally::Tally;
use draws::source::DrawSource;
use run::Run;
use schedulers::scheduler::Scheduler;

// What the runs of a scheduler come to so far, and what is left of the allowance.
#[derive(Clone, Copy)]
pub(crate) struct Progress {
    pub(crate) tally: Tally,
    pub(crate) left: u32,
}

// Steps a run, at most so many times, until a step is refused. Tells how many were granted.
fn steps_granted<S: Scheduler, D: DrawSource>(
    run: &mut Run<'_, '_, D>,
    scheduler: &S,
    most: u32,
) -> u32
    ensures stepped { stepped (plan_for run.old) (S.Scheduler.meaning scheduler.now) most
        (view_of D.DrawSource.coming run.old) ≡ (view_of D.DrawSource.coming run.new, result) }
    ensures no_more { result ≤ most }
    ensures keeps_plan_and_source { KeepsPlanAndSource D.DrawSource.book run.old run.new }
{
    for granted in 0..most {
        if run.step(scheduler).is_err() {
            return granted;
        }
    }
    most
}

impl Progress {
    // Makes the run that starts a row of the source, and counts it.
    fn one_more<S: Scheduler, D: DrawSource>(
        &mut self,
        job: &Job<'_>,
        source: &mut D,
        scheduler: &S,
        row: u32,
    )
        requires { runs_in self.old.tally < 10000 }
        ensures counted { progress_of (D.DrawSource.coming source.new) self.new
            ≡ one_more (plan_of job.now.plan) (D.DrawSource.book source.old)
            (S.Scheduler.meaning scheduler.now) job.now.limits.steps
            row (progress_of (D.DrawSource.coming source.old) self.old) }
        ensures book_kept { D.DrawSource.book source.new ≡ D.DrawSource.book source.old }
    {
        source.start_row(row);
        let mut run = Run::of_plan(job.plan, source);
        let most = job.limits.steps.min(self.left);
        self.left -= steps_granted(&mut run, scheduler, most);
        self.tally.count(run.standing());
    }
}

impl Job<'_> {
    // Makes all runs of a scheduler, with what is left of the allowance.
    pub(crate) fn runs_of<S: Scheduler, D: DrawSource>(
        &self,
        source: &mut D,
        scheduler: &S,
        left: u32,
    ) -> Progress
        ensures counted { progress_of (D.DrawSource.coming source.new) result
            ≡ first_runs (plan_of self.now.plan) (D.DrawSource.book source.old)
            (S.Scheduler.meaning scheduler.now) self.now.limits.steps self.now.limits.runs
            (none_yet left (D.DrawSource.coming source.old)) }
        ensures book_kept { D.DrawSource.book source.new ≡ D.DrawSource.book source.old }
    {
        let mut progress = Progress {
            tally: Tally::default(),
            left,
        };
        for row in 0..self.limits.runs {
            progress.one_more(self, source, scheduler, row);
        }
        progress
    }
}
