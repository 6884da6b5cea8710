// The changes that are possible in a stage.
ghost use Rattle.std.specs.Prelude.{◌≡◌, ◌+◌, ◌^◌, ◌≤◌, true};
ghost use Rattle.offers.specs.Known.{plan_of, rows_of};
ghost use Rattle.offers.specs.Lists.{listed};
ghost use Rattle.offers.specs.Waits.{span_of};
ghost use Rattle.region.specs.Viewed.{viewed};
ghost use Rattle.runs.specs.Runs.{any_in, guard_span, offer_of, offers_at};
ghost use Rattle.runs.specs.Tables.{change_of_row};
ghost use Rattle.runs.specs.Telling.{OffersAreThePossibleChanges};

use crate::list::OfferList;
use crate::sound_plan::Plan;
use crate::waits::{Span, cuts};
use region::Region;
use rows::tables::ChangeRow;
use runs::{Offer, State};

impl Plan<'_> {
    // The waits from 0 through `last` that a change's guard allows.
    pub fn guard_span(&self, region: &Region, last: u32, change: ChangeRow) -> Span
        ensures span { span_of result ≡ guard_span (viewed region.now) last (change_of_row (rows_of self.now) change).guard }
        ensures few { result.until ≤ last + 1 }
    {
        let guard = self.rows.guard_of(change);
        cuts(region, guard, Span::upto(last))
    }

    // The changes of a stage that some wait of its hold interval makes possible, in order, each with the first and the last such wait.
    #[tactic(auto, using(runs::proofs::Offered::offers_are_the_possible_changes))]
    pub fn possible_changes(&self, at: &State) -> OfferList
        ensures offers_are_the_possible_changes { OffersAreThePossibleChanges }
        ensures offers { listed result ≡ offers_at (plan_of self.now) at.now.stage (viewed at.now.region) }
    {
        let row = self.stage_row(at.stage);
        let changes = self.rows.changes_of(row);
        let last = self.top(at);
        let mut list = OfferList::none();
        // A plain loop over the changes in their order, as the project fixes it.
        for (i, change) in changes.iter().enumerate() {
            let span = self.guard_span(&at.region, last, *change);
            if span.is_some() {
                list.push(offer(row.first_change + i as u16, span));
            }
        }
        list
    }
}

// The offer of the change at a place of the change table after the waits of a span.
fn offer(place: u16, span: Span) -> Offer
    requires some { any_in (span_of span) ≡ true }
    requires few { span.until ≤ 2 ^ 32 }
    ensures { result ≡ offer_of place (span_of span) }
{
    Offer {
        change: place,
        lowest: span.from as u32,
        highest: (span.until - 1) as u32,
    }
}
