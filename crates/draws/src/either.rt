// A source of any kind.
ghost use Rattle.draws.specs.Computed.{first_state};
ghost use Rattle.draws.specs.Either.{book_of, coming_of};
ghost use Rattle.draws.specs.Ends.{always_ends, endless_ends, listed_ends, recorded_ends};
ghost use Rattle.draws.specs.Fits.{endless_fit, listed_fit, recorded_fit, stream_fits};
ghost use Rattle.draws.specs.Mixed.{draws_from, first_words};
ghost use Rattle.draws.specs.declared.either.Source.TheVariants.{Computed, Mixed, Recorded};

use crate::congruential::Congruential;
use crate::mixed::Mixed;
use crate::source::DrawSource;
use crate::tape::Tape;
use rows::refusal::Refusal;

// Computed, mixed or recorded draws, whichever were asked for where the program runs.
#[derive(Debug, PartialEq, Eq, Drop)]
pub enum Source<'a> {
    Computed(Congruential),
    Mixed(Mixed),
    Recorded(Tape<'a>),
}

impl<'a> DrawSource for Source<'a> {
    ghost book = { book_of };

    ghost coming = { coming_of };

    ghost book_fits = { elim [
      | Computed c ↦ λ row. endless_fit (first_state c.seed row)
      | Mixed m ↦ λ row. stream_fits (first_words m.seed row)
      | Recorded t ↦ recorded_fit t.row_length t.numbers.now t.numbers_fit
    ] };

    ghost coming_fits = { elim [
      | Computed c ↦ endless_fit c.state
      | Mixed m ↦ stream_fits m.words
      | Recorded t ↦ listed_fit t.left.now t.left_fit
    ] };

    ghost book_ends = { elim [
      | Computed c ↦ λ row. endless_ends (first_state c.seed row)
      | Mixed m ↦ λ row. always_ends (draws_from (first_words m.seed row))
      | Recorded t ↦ recorded_ends t.row_length t.numbers.now
    ] };

    ghost coming_ends = { elim [
      | Computed c ↦ endless_ends c.state
      | Mixed m ↦ always_ends (draws_from m.words)
      | Recorded t ↦ listed_ends t.left.now
    ] };

    // Draws from the source that it holds.
    fn draw(&mut self) -> Result<u32, Refusal> {
        match self {
            Source::Computed(source) => source.draw(),
            Source::Mixed(source) => source.draw(),
            Source::Recorded(tape) => tape.draw(),
        }
    }

    // Starts a row of the source that it holds.
    fn start_row(&mut self, row: u32) {
        match self {
            Source::Computed(source) => source.start_row(row),
            Source::Mixed(source) => source.start_row(row),
            Source::Recorded(tape) => tape.start_row(row),
        }
    }
}

#[cfg(test)]
mod tests {
    use crate::congruential::Congruential;
    use crate::either::Source;
    use crate::source::DrawSource;
    use crate::tape::Tape;
    use rows::refusal::Refusal;

    #[test]
    fn each_kind_deals_its_own_draws(rt: HostRuntime) {
        let mut computed = Source::Computed(Congruential::new(0));
        assert_eq!(rt; computed.draw(), Ok(1013904223));
        computed.start_row(0);
        assert_eq!(rt; computed.draw(), Ok(1013904223));
        let mut recorded = Source::Recorded(Tape::new(&[10], 1));
        assert_eq!(rt; recorded.draw(), Ok(10));
        assert_eq!(rt; recorded.draw(), Err(Refusal::NoDrawToCome));
        recorded.start_row(0);
        assert_eq!(rt; recorded.draw(), Ok(10));
    }
}
