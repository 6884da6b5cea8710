// Recorded draws.
ghost use Rattle.draws.specs.Recorded.{Fit};

pub mod reading;

// The most numbers that a row may have.
pub const LONGEST_ROW: u32 = 10_000;

// Recorded numbers in rows of one length, the last row perhaps short. Where the length is not from 1 to 10,000 every row is empty.
#[derive(Clone, Copy, Debug, PartialEq, Eq)]
pub struct Tape<'a> {
    numbers: &'a [u32],
    row_length: usize,
    left: &'a [u32],
    ghost numbers_fit: { Fit numbers.now },
    ghost left_fit: { Fit left.now },
}
