// The replay of a list of calls.
ghost use Rattle.std.specs.Prelude.{◌≡◌, ◌≤◌, true, [], ◌∷◌, length, is_err};
ghost use Rattle.offers.specs.Checked.{checked};
ghost use Rattle.run.specs.Calls.{Entered, Replayed, blank_entry, call_of, calls_of, entry_of, reply_of};
ghost use Rattle.run.specs.Views.{KeepsPlanAndSource, plan_for, view_of};
ghost use Rattle.runs.specs.Examples.{TheRulesGiveTheWorkedExamples};
ghost use Rattle.logs.specs.Logs.{past_of};
ghost use Rattle.runs.specs.Runs.{entry_after, make};
ghost use Rattle.runs.specs.Tables.{plan_in};
ghost use Rattle.runs.specs.Telling.{RegionsAndTicksTellTheSame, TellATickRun};

use crate::Run;
use crate::call::{Call, Entry, Reply};
use draws::source::DrawSource;
use logs::Log;
use plan::handed::Handed;
use rows::refusal::Refusal;
use runs::{Standing, State};
use schedulers::scheduler::Scheduler;

impl Entry {
    // An entry to fill a log's rows with before there are any.
    pub fn blank() -> Entry
        ensures { entry_of result ≡ blank_entry }
    {
        Entry {
            reply: Reply::Stands(Standing::Open),
            at: State::opening(1),
            standing: Standing::Open,
        }
    }
}

impl<D: DrawSource> Run<'_, '_, D> {
    // Makes one call, and tells its reply and where the run is then.
    fn make<S: Scheduler>(&mut self, call: &Call<S>) -> Entry
        ensures made { make (plan_for self.old) (view_of D.DrawSource.coming self.old) (call_of S.Scheduler.meaning call.now) ≡ (reply_of result.reply, view_of D.DrawSource.coming self.new) }
        ensures told { entry_of result ≡ entry_after (reply_of result.reply, view_of D.DrawSource.coming self.new) }
        ensures keeps_plan_and_source { KeepsPlanAndSource D.DrawSource.book self.old self.new }
    {
        let reply = match call {
            Call::Step(scheduler) => Reply::Answered(self.step(scheduler)),
            Call::Take { change, wait } => Reply::Answered(self.take(*change, *wait)),
            Call::Offers => Reply::Offered(self.offers()),
            Call::Standing => Reply::Stands(self.standing()),
        };
        Entry {
            reply,
            at: self.at,
            standing: self.standing,
        }
    }

    // Makes one call, and enters it.
    fn enter<S: Scheduler>(&mut self, call: &Call<S>, log: &mut Log<'_, Entry>)
        requires { 1 ≤ length (past_of log.old) }
        ensures entered { Entered (plan_for self.old) (view_of D.DrawSource.coming self.old) (view_of D.DrawSource.coming self.new) (call_of S.Scheduler.meaning call.now ∷ []) log.old log.new }
        ensures keeps_plan_and_source { KeepsPlanAndSource D.DrawSource.book self.old self.new }
        ensures same_rows { log.new.rows.ghost_name ≡ log.old.rows.ghost_name }
    {
        let entry = self.make(call);
        // Not refused: there is room for the entry.
        let _ = log.enter(entry);
    }

    // Makes every call, in order, and enters it.
    fn enter_all<S: Scheduler>(&mut self, calls: &[Call<S>], log: &mut Log<'_, Entry>)
        requires { length calls.now ≤ length (past_of log.old) }
        ensures entered { Entered (plan_for self.old) (view_of D.DrawSource.coming self.old) (view_of D.DrawSource.coming self.new) (calls_of S.Scheduler.meaning calls.now) log.old log.new }
        ensures keeps_plan_and_source { KeepsPlanAndSource D.DrawSource.book self.old self.new }
        ensures same_rows { log.new.rows.ghost_name ≡ log.old.rows.ghost_name }
    {
        for call in calls {
            self.enter(call, log);
        }
    }
}

// Opens a run on handed tables and a source, makes every call of a list, and enters each reply,
// with where the run is then, in a log. Where the log has no room for all of them it is refused
// before anything is done.
#[tactic(auto, using(runs::proofs::Worked::the_rules_give_the_worked_examples))]
pub fn replay<'p, S: Scheduler, D: DrawSource>(
    handed: Handed<'p>,
    source: &mut D,
    calls: &[Call<S>],
    log: &mut Log<'_, Entry>,
) -> Result<(), Refusal>
    ensures replayed { Replayed (plan_in (checked handed.entry)) (D.DrawSource.coming source.old)
        (calls_of S.Scheduler.meaning calls.now) log.old log.new
        (D.DrawSource.coming source.new) result }
    ensures tells_a_tick_run { TellATickRun (plan_in (checked handed.entry))
        (D.DrawSource.coming source.old) (calls_of S.Scheduler.meaning calls.now) }
    ensures regions_and_ticks_tell_the_same { RegionsAndTicksTellTheSame
        (plan_in (checked handed.entry)) (D.DrawSource.coming source.old) }
    ensures the_rules_give_the_worked_examples { TheRulesGiveTheWorkedExamples }
    ensures book_kept { D.DrawSource.book source.new ≡ D.DrawSource.book source.old }
    ensures refused_unchanged { is_err result ≡ true → source.new ≡ source.old }
    ensures same_rows { log.new.rows.ghost_name ≡ log.old.rows.ghost_name }
{
    if log.room() < calls.len() {
        return Err(Refusal::LogFull);
    }
    let mut run = Run::open(handed, source);
    run.enter_all(calls, log);
    Ok(())
}
