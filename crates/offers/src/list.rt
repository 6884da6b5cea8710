// Lists of offers.
ghost use Rattle.std.specs.Prelude.{◌≡◌, ◌-◌, ◌<◌, ◌≤◌, [], ◌∷◌, ◌++◌, length, drop, replicate, ◌==◌, MatchOption};
ghost use Rattle.runs.specs.Runs.{blank_offer};

use rows::tables::MOST_CHANGES;
use runs::Offer;

// The most offers that a list holds: one for each change that a stage may have.
pub const MOST: usize = MOST_CHANGES;

// The first `len` items are the offers, and the others are blank. The room is fixed and the list is copied whole, since logs that are lent keep it and nothing grows inside a run.
#[derive(Clone, Copy, Debug, PartialEq, Eq)]
pub struct OfferList {
    pub(crate) items: [Offer; MOST],
    pub(crate) len: usize,
    ghost few: { len ≤ 128 },
    ghost blank: { drop len items ≡ replicate (128 - len) blank_offer },
}

impl OfferList {
    ghost use Rattle.offers.specs.Lists.{listed};

    // The list with no offer.
    pub fn none() -> OfferList
        ensures { listed result ≡ [] }
    {
        OfferList {
            items: [Offer::default(); MOST],
            len: 0,
        }
    }

    // The list of these offers, in order; none where there are more than a list holds.
    pub fn of(offers: &[Offer]) -> Option<OfferList>
        ensures { MatchOption result (128 < length offers.now)
            (λ list. listed list ≡ offers.now) }
    {
        if offers.len() > MOST {
            return None;
        }
        let mut list = OfferList::none();
        for offer in offers {
            list.push(*offer);
        }
        Some(list)
    }

    // The offers, in order.
    pub fn as_slice(&self) -> &[Offer]
        ensures { result.now ≡ listed self.now }
    {
        &self.items[..self.len]
    }

    // How many offers there are.
    pub fn len(&self) -> usize
        ensures count { result ≡ length (listed self.now) }
        ensures few { result ≤ 128 }
    {
        self.as_slice().len()
    }

    // Whether there is no offer.
    pub fn is_empty(&self) -> bool
        ensures { result ≡ (length (listed self.now) == 0) }
    {
        self.as_slice().is_empty()
    }

    // Puts an offer at the end.
    pub(crate) fn push(&mut self, offer: Offer)
        requires { length (listed self.old) < 128 }
        ensures { listed self.new ≡ listed self.old ++ offer ∷ [] }
    {
        self.items[self.len] = offer;
        self.len += 1;
    }
}
