// Endless rows of well-mixed draws: each row of each seed is begun from a number of its own.
ghost use Rattle.std.specs.Prelude.{◌≡◌};
ghost use Rattle.draws.specs.Ends.{always_ends};
ghost use Rattle.draws.specs.Fits.{stream_fits};
ghost use Rattle.draws.specs.Mixed.{EachRowHasItsOwnNumber, book_of, coming_of, draws_from};
ghost use Rattle.draws.specs.Mixed.{first_words, mixed_rows};

use crate::source::DrawSource;
use rand_core::SeedableRng;
use rand_core::utils::NextWord;
use rand_xoshiro::Xoshiro128PlusPlus;
use rows::refusal::Refusal;

// A row is a generator of its own, seeded by the number that the seed and the row make together.
// Each draw is its next word.
#[derive(Debug, PartialEq, Eq, Drop)]
pub struct Mixed {
    seed: u32,
    words: Xoshiro128PlusPlus,
}

// The generator at which a row begins.
#[tactic(auto, unfolding(crate::specs::Mixed::first_words))]
fn first(seed: u32, row: u32) -> Xoshiro128PlusPlus
    ensures { result ≡ first_words seed row }
{
    Xoshiro128PlusPlus::seed_from_u64((u64::from(seed) << 32) + u64::from(row))
}

impl Mixed {
    // A source with this seed, at row 0.
    pub fn new(seed: u32) -> Mixed
        ensures rows { book_of result ≡ mixed_rows seed }
        ensures at_row_0 { coming_of result ≡ mixed_rows seed 0 }
        ensures each_row_has_its_own_number { EachRowHasItsOwnNumber }
    {
        Mixed {
            seed,
            words: first(seed, 0),
        }
    }
}

impl DrawSource for Mixed {
    ghost book = { book_of };

    ghost coming = { coming_of };

    ghost book_fits = { λ s row. stream_fits (first_words s.seed row) };

    ghost coming_fits = { λ s. stream_fits s.words };

    ghost book_ends = { λ s row. always_ends (draws_from (first_words s.seed row)) };

    ghost coming_ends = { λ s. always_ends (draws_from s.words) };

    #[tactic(auto, unfolding(crate::specs::Mixed::draw_of, crate::specs::Mixed::next_words))]
    fn draw(&mut self) -> Result<u32, Refusal> {
        Ok(self.words.next_word())
    }

    fn start_row(&mut self, row: u32) {
        self.words = first(self.seed, row);
    }
}

#[cfg(test)]
mod tests {
    use crate::mixed::Mixed;
    use crate::source::DrawSource;

    // Expected from the published rules of the generator and of its seeding.
    #[test]
    fn the_first_draws_of_seed_0(rt: HostRuntime) {
        let mut source = Mixed::new(0);
        assert_eq!(rt; source.draw(), Ok(1179900579));
        assert_eq!(rt; source.draw(), Ok(1938959192));
        assert_eq!(rt; source.draw(), Ok(3089844957));
    }

    #[test]
    fn each_seed_and_row_has_its_own_draws(rt: HostRuntime) {
        let mut source = Mixed::new(0);
        source.start_row(1);
        assert_eq!(rt; source.draw(), Ok(2146930148));
        assert_eq!(rt; Mixed::new(1).draw(), Ok(993168421));
        let mut last = Mixed::new(u32::MAX);
        last.start_row(u32::MAX);
        assert_eq!(rt; last.draw(), Ok(2650238882));
        assert_eq!(rt; last.draw(), Ok(1278636629));
    }
}
