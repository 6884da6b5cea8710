// Opening a run.
ghost use Rattle.std.specs.Prelude.{◌≡◌};
ghost use Rattle.offers.specs.Checked.{checked};
ghost use Rattle.offers.specs.Known.{plan_of};
ghost use Rattle.run.specs.Views.{plan_for, view_of};
ghost use Rattle.runs.specs.Runs.{opening};
ghost use Rattle.runs.specs.Tables.{plan_in};
ghost use Rattle.runs.specs.Telling.{KeepsInBounds, RegionsAndTicksTellTheSame};

use crate::Run;
use crate::arrival::judged;
use draws::source::DrawSource;
use offers::sound_plan::Plan;
use plan::handed::Handed;
use runs::State;

impl<'p, 's, D: DrawSource> Run<'p, 's, D> {
    // A run of a checked plan: in stage 0, all timers at zero, its arrival judged.
    #[tactic(auto, using(runs::proofs::Calls::as_it_opens, crate::proofs::Zeros::opened_at_zero))]
    pub fn of_plan(plan: Plan<'p>, source: &'s mut D) -> Run<'p, 's, D>
        ensures its_plan { result.plan ≡ plan.entry }
        ensures as_it_opens { view_of D.DrawSource.coming result
            ≡ opening (plan_of plan.entry) (D.DrawSource.coming source.old) }
        ensures its_source { result.source.now ≡ source.old }
        ensures lent { result.source.ghost_name ≡ source.entry.ghost_name }
        ensures regions_and_ticks_tell_the_same { RegionsAndTicksTellTheSame (plan_of plan.entry)
            (D.DrawSource.coming source.old) }
        ensures every_call_keeps_it_in_bounds { KeepsInBounds (plan_of plan.entry)
            (D.DrawSource.coming source.old) }
    {
        let at = State::opening(plan.tables().timers.len());
        let standing = judged(&plan, &at);
        Run {
            plan,
            source,
            at,
            standing,
        }
    }

    // A run of the plan in handed tables if they pass the check, and else of the plan in which nothing can happen.
    pub fn open(handed: Handed<'p>, source: &'s mut D) -> Run<'p, 's, D>
        ensures the_plan_handed { plan_for result ≡ plan_in (checked handed.entry) }
        ensures as_it_opens { view_of D.DrawSource.coming result
            ≡ opening (plan_for result) (D.DrawSource.coming source.old) }
        ensures its_source { result.source.now ≡ source.old }
        ensures lent { result.source.ghost_name ≡ source.entry.ghost_name }
        ensures regions_and_ticks_tell_the_same { RegionsAndTicksTellTheSame (plan_for result)
            (D.DrawSource.coming source.old) }
        ensures every_call_keeps_it_in_bounds { KeepsInBounds (plan_for result)
            (D.DrawSource.coming source.old) }
    {
        Run::of_plan(Plan::of_tables(handed), source)
    }
}
