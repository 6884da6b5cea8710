// What a scheduler is.
ghost use Rattle.std.specs.Prelude.{◌≡◌, ℕ, List, []};
ghost use Rattle.region.specs.Viewed.{viewed};
ghost use Rattle.runs.specs.Runs.{InRange, Scheduler as Meaning};
ghost use Rattle.theory.specs.Records.{Record};

use runs::{Offer, State};

// Who chooses among the offers. Its meaning is a fixed function, and consulting it alters nothing.
pub trait Scheduler {
    ghost meaning: { Self → Meaning };

    // A place in the list of offers, and a wait within that offer; (0, 0) where there is no offer. The project fixes this answer.
    fn choose(&self, at: &State, offers: &[Offer]) -> (usize, u32)
        ensures { result ≡ meaning self.now at.now.stage (viewed at.now.region) offers.now };

    ghost within: { (s : Self) → InRange (meaning s) };

    ghost none: { (s : Self) (i : ℕ) (r : Record) → meaning s i r [] ≡ (0, 0) };
}
