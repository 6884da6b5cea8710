// Endless rows of draws, computed from a seed.
ghost use Rattle.std.specs.Prelude.{◌≡◌};
ghost use Rattle.draws.specs.Computed.{after, book_of, coming_of, computed, first_state};
ghost use Rattle.draws.specs.Ends.{endless_ends};
ghost use Rattle.draws.specs.Fits.{endless_fit};

use crate::source::DrawSource;
use rows::refusal::Refusal;

// A row begins at the seed plus its number. Each draw changes the state and gives it.
#[derive(Clone, Copy, Debug, PartialEq, Eq)]
pub struct Congruential {
    seed: u32,
    state: u32,
}

// The state after this one: the next number of the computed sequence.
#[tactic(auto, unfolding(crate::specs::Computed::after))]
pub fn next(state: u32) -> u32
    ensures { result ≡ after state }
{
    state.wrapping_mul(1664525).wrapping_add(1013904223)
}

// The state at which a row begins.
fn first(seed: u32, row: u32) -> u32
    ensures { result ≡ first_state seed row }
{
    seed.wrapping_add(row)
}

impl Congruential {
    // A source with this seed, at row 0.
    pub fn new(seed: u32) -> Congruential
        ensures rows { book_of result ≡ computed seed }
        ensures at_row_0 { coming_of result ≡ computed seed 0 }
    {
        Congruential {
            seed,
            state: first(seed, 0),
        }
    }
}

impl DrawSource for Congruential {
    ghost book = { book_of };

    ghost coming = { coming_of };

    ghost book_fits = { λ s row. endless_fit (first_state s.seed row) };

    ghost coming_fits = { λ s. endless_fit s.state };

    ghost book_ends = { λ s row. endless_ends (first_state s.seed row) };

    ghost coming_ends = { λ s. endless_ends s.state };

    fn draw(&mut self) -> Result<u32, Refusal> {
        self.state = next(self.state);
        Ok(self.state)
    }

    fn start_row(&mut self, row: u32) {
        self.state = first(self.seed, row);
    }
}

#[cfg(test)]
mod tests {
    use crate::congruential::Congruential;
    use crate::source::DrawSource;

    #[test]
    fn the_first_draws_of_seed_0(rt: HostRuntime) {
        let mut source = Congruential::new(0);
        assert_eq!(rt; source.draw(), Ok(1013904223));
        assert_eq!(rt; source.draw(), Ok(1196435762));
    }

    #[test]
    fn a_row_begins_anew(rt: HostRuntime) {
        let mut source = Congruential::new(u32::MAX);
        source.start_row(1);
        assert_eq!(rt; source.draw(), Ok(1013904223));
        source.start_row(1);
        assert_eq!(rt; source.draw(), Ok(1013904223));
    }
}
