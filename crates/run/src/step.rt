// A step by a scheduler.
ghost use Rattle.std.specs.Prelude.{◌≡◌, true, [], is_err};
ghost use Rattle.run.specs.Views.{KeepsPlanAndSource, Kept, plan_for, view_of};
ghost use Rattle.runs.specs.Runs.{ran_out, step_call};
ghost use Rattle.runs.specs.declared.Answer.TheVariants.{RanOut};

use crate::Run;
use draws::source::DrawSource;
use rows::refusal::Refusal;
use runs::{Answer, Standing};
use schedulers::scheduler::Scheduler;

impl<D: DrawSource> Run<'_, '_, D> {
    // Ends the run for want of offers. Timers stay; the goal is reached if it is on at some wait of the hold interval.
    fn run_out(&mut self) -> Answer
        ensures answer { result ≡ RanOut }
        ensures ended { view_of D.DrawSource.coming self.new ≡ ran_out (plan_for self.old) (view_of D.DrawSource.coming self.old) }
        ensures kept { Kept self.old self.new }
    {
        let last = self.plan.top(&self.at);
        self.standing = if self.plan.goal_by(&self.at, last) {
            Standing::Reached
        } else {
            Standing::Stuck
        };
        Answer::RanOut
    }

    // Does what a take does with the pair that the scheduler chooses, or runs out where there is no offer.
    #[tactic(auto, using(runs::proofs::Choosing::step_not_open, runs::proofs::Choosing::step_runs_out, crate::proofs::Chosen::none_listed))]
    pub fn step<S: Scheduler>(&mut self, scheduler: &S) -> Result<Answer, Refusal>
        ensures answer { step_call (plan_for self.old) (S.Scheduler.meaning scheduler.now) (view_of D.DrawSource.coming self.old) ≡ (result, view_of D.DrawSource.coming self.new) }
        ensures keeps_plan_and_source { KeepsPlanAndSource D.DrawSource.book self.old self.new }
        ensures refused_unchanged { is_err result ≡ true → self.new ≡ self.old }
    {
        if !self.standing.is_open() {
            return Err(Refusal::RunNotOpen);
        }
        let list = self.plan.possible_changes(&self.at);
        if list.is_empty() {
            return Ok(self.run_out());
        }
        let offers = list.as_slice();
        let (place, wait) = scheduler.choose(&self.at, offers);
        self.take(offers[place].change, wait)
    }
}
