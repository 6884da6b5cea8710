// The offers of a run.
ghost use Rattle.std.specs.Prelude.{◌≡◌};
ghost use Rattle.offers.specs.Lists.{listed};
ghost use Rattle.run.specs.Views.{plan_for, view_of};
ghost use Rattle.runs.specs.Runs.{shown};

use crate::Run;
use draws::source::DrawSource;
use offers::list::OfferList;

impl<D: DrawSource> Run<'_, '_, D> {
    // The changes that are possible now, in their order; none unless the run is open.
    #[tactic(auto, using(runs::proofs::Telling::shown_open, runs::proofs::Telling::shown_not_open))]
    pub fn offers(&self) -> OfferList
        ensures { listed result ≡ shown (plan_for self.now) (view_of D.DrawSource.coming self.now) }
    {
        if self.standing.is_open() {
            self.plan.possible_changes(&self.at)
        } else {
            OfferList::none()
        }
    }
}
