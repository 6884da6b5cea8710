// The rows of a batch, entered one by one.
ghost use Rattle.std.specs.Prelude.{◌≡◌, ◌≤◌, [], length};
ghost use Rattle.batch.specs.Batches.{Joined, all_made, one_row};
ghost use Rattle.batch.specs.Progresses.{Entered};
ghost use Rattle.offers.specs.Known.{plan_of};
ghost use Rattle.logs.specs.Logs.{past_of};

use crate::BatchRow;
use crate::job::Job;
use crate::watch::Watch;
use draws::source::DrawSource;
use logs::Log;
use schedulers::sampled::Sampled;

impl Job<'_> {
    // Makes all runs of an identifier's sampled scheduler, and enters its row. Tells what is left
    // of the allowance.
    fn enter_row<D: DrawSource, W: Watch>(
        &self,
        source: &mut D,
        identifier: u32,
        left: u32,
        log: &mut Log<'_, BatchRow>,
        watch: &mut W,
    ) -> u32
        requires { 1 ≤ length (past_of log.old) }
        ensures entered { Entered (one_row (plan_of self.now.plan) (D.DrawSource.book source.old)
            self.now.limits
            (record { rows = []; left = left; coming = D.DrawSource.coming source.old }) identifier)
            log.old log.new result (D.DrawSource.coming source.new) }
        ensures book_kept { D.DrawSource.book source.new ≡ D.DrawSource.book source.old }
        ensures same_rows { log.new.rows.ghost_name ≡ log.old.rows.ghost_name }
    {
        let done = self.runs_of(source, &Sampled { identifier }, left);
        let row = BatchRow::of(identifier, done.tally);
        // Not refused: there is room for the row.
        let _ = log.enter(row);
        watch.row_done(&row);
        done.left
    }

    // Makes all runs of every identifier, in order, and enters its row.
    pub(crate) fn enter_rows<D: DrawSource, W: Watch>(
        &self,
        source: &mut D,
        identifiers: &[u32],
        log: &mut Log<'_, BatchRow>,
        watch: &mut W,
    )
        requires { length identifiers.now ≤ length (past_of log.old) }
        ensures joined { Joined (all_made (plan_of self.now.plan) (D.DrawSource.book source.old)
            (D.DrawSource.coming source.old) self.now.limits identifiers.now).rows log.old log.new }
        ensures draws { D.DrawSource.coming source.new
            ≡ (all_made (plan_of self.now.plan) (D.DrawSource.book source.old)
            (D.DrawSource.coming source.old) self.now.limits identifiers.now).coming }
        ensures book_kept { D.DrawSource.book source.new ≡ D.DrawSource.book source.old }
        ensures same_rows { log.new.rows.ghost_name ≡ log.old.rows.ghost_name }
    {
        let mut left = self.limits.allowance;
        for identifier in identifiers {
            left = self.enter_row(source, *identifier, left, log, watch);
        }
    }
}
