// What some runs come to.
ghost use Rattle.std.specs.Prelude.{◌≡◌, ◌<◌};
ghost use Rattle.batch.specs.Batches.{counted, row_with, tally_of};
ghost use Rattle.batch.specs.Promised.{runs_in};

use crate::BatchRow;
use runs::Standing;

// How many of some runs stood in each way.
#[derive(Clone, Copy, Debug, PartialEq, Eq, Default)]
pub struct Tally {
    pub reached: u32,
    pub failed: u32,
    pub stuck: u32,
    pub unfinished: u32,
}

impl Tally {
    // Counts a run by how it stands.
    pub(crate) fn count(&mut self, standing: Standing)
        requires { runs_in self.old < 10000 }
        ensures { self.new ≡ counted standing self.old }
    {
        match standing {
            Standing::Open => self.unfinished += 1,
            Standing::Reached => self.reached += 1,
            Standing::Failed => self.failed += 1,
            Standing::Stuck => self.stuck += 1,
        }
    }
}

impl BatchRow {
    // The row of an identifier whose runs come to a tally.
    pub(crate) fn of(identifier: u32, tally: Tally) -> BatchRow
        ensures { result ≡ row_with identifier tally }
    {
        BatchRow {
            identifier,
            reached: tally.reached,
            failed: tally.failed,
            stuck: tally.stuck,
            unfinished: tally.unfinished,
        }
    }

    // What the runs of the row come to.
    pub fn tally(&self) -> Tally
        ensures { result ≡ tally_of self.now }
    {
        Tally {
            reached: self.reached,
            failed: self.failed,
            stuck: self.stuck,
            unfinished: self.unfinished,
        }
    }
}
