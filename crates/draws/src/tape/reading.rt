// The rows of a tape, and the draws of the present one.
ghost use Rattle.std.specs.Prelude.{◌≡◌, ◌≤◌};
ghost use Rattle.draws.specs.Ends.{listed_ends, recorded_ends};
ghost use Rattle.draws.specs.Fits.{listed_fit, recorded_fit};
ghost use Rattle.draws.specs.Recorded.{Fit, kept, numbers_of, recorded};
ghost use Rattle.draws.specs.Taped.{book_of, coming_of};

use crate::source::DrawSource;
use crate::tape::{LONGEST_ROW, Tape};
use rows::refusal::Refusal;
use rows::tables::part;

// How many numbers a row has, but for a last one that is short.
fn full_row(row_length: usize) -> usize
    ensures value { result ≡ kept row_length }
    ensures small { result ≤ 10000 }
{
    if row_length <= LONGEST_ROW as usize {
        row_length
    } else {
        0
    }
}

// The numbers of a row.
fn row_of(numbers: &[u32], row_length: usize, row: u32) -> &[u32]
    ensures numbers { result.now ≡ numbers_of numbers.now row_length row }
    ensures fit { Fit result.now }
{
    let length = full_row(row_length);
    let first = row as usize * length;
    part(numbers, first, length)
}

impl<'a> Tape<'a> {
    // A source over these numbers, at row 0.
    pub fn new(numbers: &'a [u32], row_length: usize) -> Tape<'a>
        ensures rows { book_of result ≡ recorded numbers.now row_length }
        ensures at_row_0 { coming_of result ≡ recorded numbers.now row_length 0 }
    {
        Tape {
            numbers,
            row_length,
            left: row_of(numbers, row_length, 0),
        }
    }
}

impl<'a> DrawSource for Tape<'a> {
    ghost book = { book_of };

    ghost coming = { coming_of };

    ghost book_fits = { λ s. recorded_fit s.row_length s.numbers.now s.numbers_fit };

    ghost coming_fits = { λ s. listed_fit s.left.now s.left_fit };

    ghost book_ends = { λ s. recorded_ends s.row_length s.numbers.now };

    ghost coming_ends = { λ s. listed_ends s.left.now };

    fn draw(&mut self) -> Result<u32, Refusal> {
        let (first, rest) = self.left.split_first().ok_or(Refusal::NoDrawToCome)?;
        self.left = rest;
        Ok(*first)
    }

    fn start_row(&mut self, row: u32) {
        self.left = row_of(self.numbers, self.row_length, row);
    }
}

#[cfg(test)]
mod tests {
    use crate::source::DrawSource;
    use crate::tape::Tape;
    use rows::refusal::Refusal;

    const NUMBERS: [u32; 7] = [10, 11, 12, 13, 14, 15, u32::MAX];

    #[test]
    fn seven_numbers_in_rows_of_three(rt: HostRuntime) {
        let mut tape = Tape::new(&NUMBERS, 3);
        assert_eq!(rt; tape.draw(), Ok(10));
        assert_eq!(rt; tape.draw(), Ok(11));
        assert_eq!(rt; tape.draw(), Ok(12));
        assert_eq!(rt; tape.draw(), Err(Refusal::NoDrawToCome));
        tape.start_row(1);
        assert_eq!(rt; tape.draw(), Ok(13));
    }

    #[test]
    fn the_last_row_is_short(rt: HostRuntime) {
        let mut tape = Tape::new(&NUMBERS, 3);
        tape.start_row(2);
        assert_eq!(rt; tape.draw(), Ok(u32::MAX));
        assert_eq!(rt; tape.draw(), Err(Refusal::NoDrawToCome));
        tape.start_row(3);
        assert_eq!(rt; tape.draw(), Err(Refusal::NoDrawToCome));
        tape.start_row(u32::MAX);
        assert_eq!(rt; tape.draw(), Err(Refusal::NoDrawToCome));
    }

    #[test]
    fn a_length_off_its_limits_leaves_every_row_empty(rt: HostRuntime) {
        let mut none = Tape::new(&NUMBERS, 0);
        assert_eq!(rt; none.draw(), Err(Refusal::NoDrawToCome));
        let mut long = Tape::new(&NUMBERS, 10_001);
        assert_eq!(rt; long.draw(), Err(Refusal::NoDrawToCome));
        let mut longest = Tape::new(&NUMBERS, 10_000);
        assert_eq!(rt; longest.draw(), Ok(10));
    }
}
