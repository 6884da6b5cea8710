// Taking a change after a wait.
ghost use Rattle.std.specs.Prelude.{◌≡◌, ◌≤◌, true, length, is_err, IfOk, MatchResult};
ghost use Rattle.offers.specs.Known.{rows_of};
ghost use Rattle.region.specs.Viewed.{viewed};
ghost use Rattle.rows.specs.Sound.{SoundOutcome};
ghost use Rattle.run.specs.Views.{Allowed, KeepsPlanAndSource, Kept, plan_for, view_of};
ghost use Rattle.runs.specs.Cases.{TakenOrMet};
ghost use Rattle.runs.specs.Runs.{InBounds, arriving, at_goal, drawing, goal_by, take_call, top};
ghost use Rattle.runs.specs.Tables.{outcome_of_row};
ghost use Rattle.runs.specs.declared.Answer.TheVariants.{Met};
ghost use Rattle.theory.specs.Records.{wait as wait_of};

use crate::Run;
use crate::arrival::judged;
use crate::lookup::change_of;
use draws::source::DrawSource;
use draws::ticket::pick;
use region::Region;
use rows::refusal::Refusal;
use rows::tables::{ChangeRow, OutcomeRow};
use runs::{Answer, Standing, State};

impl<D: DrawSource> Run<'_, '_, D> {
    // The row of a change that may be taken after a wait, or why it may not.
    #[tactic(auto, using(runs::proofs::Taking::take_not_open, runs::proofs::Taking::take_not_of_stage, runs::proofs::Taking::take_outside, runs::proofs::Taking::take_forbidden, runs::proofs::Calls::guard_read))]
    fn allowed(&self, change: u16, wait: u32) -> Result<ChangeRow, Refusal>
        ensures { MatchResult result
            (Allowed (rows_of self.now.plan) (view_of D.DrawSource.coming self.now) change wait)
            (λ e. take_call (plan_for self.now) (view_of D.DrawSource.coming self.now) change wait
            ≡ (Err e, view_of D.DrawSource.coming self.now)) }
    {
        if !self.standing.is_open() {
            return Err(Refusal::RunNotOpen);
        }
        let row = change_of(&self.plan, self.at.stage, change).ok_or(Refusal::ChangeNotOfStage)?;
        let last = self.plan.top(&self.at);
        if wait > last {
            return Err(Refusal::WaitOutsideHold);
        }
        if !self.plan.guard_span(&self.at.region, last, row).has(wait) {
            return Err(Refusal::GuardForbidsWait);
        }
        Ok(row)
    }

    // The region after a wait of the hold interval, by which no timer passes its ceiling.
    // That the wait is in the hold interval is a fact about the run and the wait together, so each step of a take asks for it, and no type of either keeps it.
    #[tactic(auto, using(runs::proofs::Calls::wait_bounds))]
    fn waited(&self, wait: u32) -> Region
        requires { wait ≤ top (plan_for self.now) self.now.at.stage (viewed self.now.at.region) }
        ensures later { viewed result ≡ wait_of wait (viewed self.now.at.region) }
        ensures in_bounds { ∥ InBounds (plan_for self.now) (viewed result) ∥₁ }
    {
        let mut region = self.at.region;
        // Not refused: a wait of the hold interval passes no ceiling.
        let _ = region.wait(wait, self.plan.tables().timers);
        region
    }

    // Whether the goal is on at some step from 0 to a wait of the hold interval.
    fn meets(&self, wait: u32) -> bool
        requires { wait ≤ top (plan_for self.now) self.now.at.stage (viewed self.now.at.region) }
        ensures { result ≡ goal_by (plan_for self.now) self.now.at.stage (viewed self.now.at.region) wait }
    {
        self.plan.goal_by(&self.at, wait)
    }

    // Lets the whole wait pass. The goal is met on its way.
    fn meet(&mut self, wait: u32) -> Answer
        requires { wait ≤ top (plan_for self.old) self.old.at.stage (viewed self.old.at.region) }
        ensures answer { result ≡ Met wait }
        ensures reached { view_of D.DrawSource.coming self.new ≡ at_goal (view_of D.DrawSource.coming self.old) wait }
        ensures kept { Kept self.old self.new }
    {
        self.at.region = self.waited(wait);
        self.standing = Standing::Reached;
        Answer::Met { wait }
    }

    // Lets the wait pass, sets the outcome's timers to zero, and arrives in its stage.
    fn arrive(&mut self, wait: u32, outcome: OutcomeRow)
        requires in_hold { wait ≤ top (plan_for self.old) self.old.at.stage (viewed self.old.at.region) }
        requires an_outcome { SoundOutcome (rows_of self.old.plan) outcome }
        ensures arrived { view_of D.DrawSource.coming self.new ≡ arriving (plan_for self.old) (view_of D.DrawSource.coming self.old) wait (outcome_of_row (rows_of self.old.plan) outcome) }
        ensures kept { Kept self.old self.new }
    {
        let mut region = self.waited(wait);
        // Not refused: a sound outcome resets timers of the plan.
        let _ = region.reset(outcome.resets);
        let at = State {
            stage: outcome.stage,
            region,
        };
        let plan = self.plan;
        self.standing = judged(&plan, &at);
        self.at = at;
    }

    // Draws, and makes the change with the outcome that the draw picks.
    fn change(&mut self, change: u16, row: ChangeRow, wait: u32) -> Result<Answer, Refusal>
        requires { Allowed (rows_of self.old.plan) (view_of D.DrawSource.coming self.old) change wait row }
        ensures answer { drawing (plan_for self.old) (view_of D.DrawSource.coming self.old)
            change wait (D.DrawSource.coming self.old.source.now 0)
            ≡ (result, view_of D.DrawSource.coming self.new) }
        ensures keeps_plan_and_source { KeepsPlanAndSource D.DrawSource.book self.old self.new }
        ensures refused_unchanged { is_err result ≡ true → self.new ≡ self.old }
    {
        let draw = self.source.draw()?;
        let plan = self.plan;
        let outcomes = plan.tables().outcomes_of(row);
        let place = pick(outcomes, draw).unwrap();
        self.arrive(wait, outcomes[place]);
        Ok(Answer::Taken {
            change,
            wait,
            outcome: row.first_outcome + place as u16,
        })
    }

    // Makes a change after a wait. If the goal is on at some step from 0 to the wait, the whole wait is made, without a change or a draw; else one draw picks the outcome.
    #[tactic(auto, using(runs::proofs::Taking::making_draws, runs::proofs::Taking::making_met))]
    pub fn take(&mut self, change: u16, wait: u32) -> Result<Answer, Refusal>
        ensures answer { take_call (plan_for self.old) (view_of D.DrawSource.coming self.old) change wait ≡ (result, view_of D.DrawSource.coming self.new) }
        ensures taken_or_met { IfOk result (TakenOrMet change wait) }
        ensures keeps_plan_and_source { KeepsPlanAndSource D.DrawSource.book self.old self.new }
        ensures refused_unchanged { is_err result ≡ true → self.new ≡ self.old }
    {
        let row = self.allowed(change, wait)?;
        if self.meets(wait) {
            return Ok(self.meet(wait));
        }
        self.change(change, row, wait)
    }
}
