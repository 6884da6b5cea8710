// Who is told how far a batch is. A type and no closure: that a closure may be called would be asked of every caller of a batch.
use crate::BatchRow;

pub trait Watch {
    // A row of the batch is done.
    fn row_done(&mut self, row: &BatchRow);
}

// Nobody is told.
#[derive(Clone, Copy)]
pub struct Unwatched;

impl Watch for Unwatched {
    fn row_done(&mut self, _row: &BatchRow) {}
}
