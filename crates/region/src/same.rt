// When two regions are one.
ghost use Rattle.std.specs.Prelude.{◌≡◌, Decides};
ghost use Rattle.region.specs.Same.{same_record_is_an_equality, same_record_is_an_equivalence, same_record};
ghost use Rattle.region.specs.Viewed.{viewed};
ghost use Rattle.theory.specs.Theorems.{EqualRecordsAreOneRegion};

use crate::Region;

// By hand, since the rows past those of the timers say nothing: a derive would tell regions apart that are one.
impl PartialEq for Region {
    ghost eq = { λ a b. same_record (viewed a) (viewed b) };

    ghost laws = { same_record_is_an_equality };

    // Whether the two say the same of the same number of timers, and so are one region.
    #[tactic(auto, using(theory::proofs::Theorems::equal_records_are_one_region))]
    fn eq(&self, other: &Region) -> bool
        ensures equal_records_are_one_region { EqualRecordsAreOneRegion }
        ensures told { result ≡ same_record (viewed self.now) (viewed other.now) }
        ensures decides { Decides result (viewed self.now ≡ viewed other.now) }
    {
        self.whole == other.whole
            && self.classes == other.classes
            && self.values() == other.values()
    }
}

impl Eq for Region {
    ghost laws = { same_record_is_an_equivalence };
}
