// A scheduler that is named where the program runs.
ghost use Rattle.schedulers.specs.Choosers.{meaning_of};
ghost use Rattle.schedulers.specs.declared.chooser.Chooser.TheVariants.{Earliest, Latest, Sampled};
ghost use Rattle.schedulers.specs.Foremosts.{earliest_in_range, earliest_none, latest_in_range, latest_none};
ghost use Rattle.schedulers.specs.Samples.{sampled_in_range, sampled_none};

use crate::first_last::{Earliest, Latest};
use crate::sampled::Sampled;
use crate::scheduler::Scheduler;
use runs::{Offer, State};

// One of the three schedulers, a sampled one with its identifier. A closed list and no dyn: a call takes a copy of it, so it is one value of
// known size, and its meaning is read from the value.
#[derive(Clone, Copy, Debug, PartialEq, Eq)]
pub enum Chooser {
    Earliest,
    Latest,
    Sampled(u32),
}

impl Scheduler for Chooser {
    ghost meaning = { meaning_of };

    ghost within = { elim [ Earliest ↦ earliest_in_range | Latest ↦ latest_in_range | Sampled id ↦ sampled_in_range id ] };

    ghost none = { elim [ Earliest ↦ earliest_none | Latest ↦ latest_none | Sampled id ↦ sampled_none id ] };

    // What the scheduler of that name chooses.
    fn choose(&self, at: &State, offers: &[Offer]) -> (usize, u32) {
        match *self {
            Chooser::Earliest => Earliest.choose(at, offers),
            Chooser::Latest => Latest.choose(at, offers),
            Chooser::Sampled(identifier) => Sampled { identifier }.choose(at, offers),
        }
    }
}
