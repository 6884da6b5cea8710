// The earliest and the latest offer. They are two types and not one with a switch: each orders by another number of an offer,
// and answers that number, and callers name the two types.
ghost use Rattle.std.specs.Prelude.{◌≡◌};
ghost use Rattle.schedulers.specs.Foremosts.{before_ranks, after_ranks, earliest_in_range, earliest_none, latest_in_range, latest_none};
ghost use Rattle.schedulers.specs.Meanings.{comes_after, comes_before, earliest, latest};

use crate::foremost::{Ranking, foremost};
use crate::scheduler::Scheduler;
use runs::{Offer, State};

// The least lowest wait, with its offer.
#[derive(Clone, Copy, Debug, PartialEq, Eq)]
pub struct Earliest;

impl Ranking<Offer> for Earliest {
    ghost ahead = { λ _. comes_before };

    ghost ranks = { λ _. before_ranks };

    fn beats(&self, a: &Offer, b: &Offer) -> bool {
        a.lowest < b.lowest
    }
}

impl Scheduler for Earliest {
    ghost meaning = { λ _. earliest };

    ghost within = { λ _. earliest_in_range };

    ghost none = { λ _. earliest_none };

    fn choose(&self, _at: &State, offers: &[Offer]) -> (usize, u32) {
        foremost(offers, self).map_or((0, 0), |place| (place, offers[place].lowest))
    }
}

// The greatest highest wait, with its offer.
#[derive(Clone, Copy, Debug, PartialEq, Eq)]
pub struct Latest;

impl Ranking<Offer> for Latest {
    ghost ahead = { λ _. comes_after };

    ghost ranks = { λ _. after_ranks };

    fn beats(&self, a: &Offer, b: &Offer) -> bool {
        a.highest > b.highest
    }
}

impl Scheduler for Latest {
    ghost meaning = { λ _. latest };

    ghost within = { λ _. latest_in_range };

    ghost none = { λ _. latest_none };

    fn choose(&self, _at: &State, offers: &[Offer]) -> (usize, u32) {
        foremost(offers, self).map_or((0, 0), |place| (place, offers[place].highest))
    }
}
