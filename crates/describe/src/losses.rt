// Runs that neither reach nor fail: those that are stuck or unfinished.
ghost use Rattle.std.specs.Prelude.{◌≡◌, ◌+◌, count_by};
ghost use Rattle.describe.specs.Losses.{IsGreatest, chooser_of, greater_of};
ghost use Rattle.describe.specs.Losses.{loss_beside, loss_of_row, losses_of, warns};

use batch::BatchRow;
use batch::tally::Tally;
use schedulers::chooser::Chooser;
use std::fmt;

// The two schedulers that may be shown beside the sampled ones.
#[derive(Clone, Copy, Debug, PartialEq, Eq)]
pub enum Named {
    Earliest,
    Latest,
}

impl Named {
    // The scheduler of this name.
    pub fn chooser(self) -> Chooser
        ensures { result ≡ chooser_of self }
    {
        match self {
            Named::Earliest => Chooser::Earliest,
            Named::Latest => Chooser::Latest,
        }
    }
}

impl fmt::Display for Named {
    fn fmt<W: fmt::Write>(&self, f: &mut fmt::Formatter<W>) -> fmt::Result {
        f.pad(match self {
            Named::Earliest => "earliest",
            Named::Latest => "latest",
        })
    }
}

// How the runs of a scheduler beside the sampled ones stood.
#[derive(Clone, Copy, Debug, PartialEq, Eq)]
pub struct Beside {
    pub name: Named,
    pub tally: Tally,
}

// Whether more than 1 % of a scheduler's runs are stuck or unfinished.
pub(crate) fn needs_warning(stuck: u32, unfinished: u32, runs: u32) -> bool
    ensures { result ≡ warns (stuck + unfinished) runs }
{
    u64::from(runs) < (u64::from(stuck) + u64::from(unfinished)) * 100
}

// How many rows need a warning.
pub(crate) fn warned_rows(rows: &[BatchRow], runs: u32) -> usize
    ensures { result ≡ count_by (λ row. warns (row.stuck + row.unfinished) runs) rows.now }
{
    rows.iter()
        .filter(|row| needs_warning(row.stuck, row.unfinished, runs))
        .count()
}

// How many of the schedulers beside need one.
pub(crate) fn warned_beside(beside: &[Beside], runs: u32) -> usize
    ensures { result ≡ count_by (λ b. warns (b.tally.stuck + b.tally.unfinished) runs) beside.now }
{
    beside
        .iter()
        .filter(|b| needs_warning(b.tally.stuck, b.tally.unfinished, runs))
        .count()
}

// How many runs of a scheduler are stuck or unfinished.
#[derive(Clone, Copy, Debug, PartialEq, Eq)]
pub(crate) struct Loss {
    pub by: Chooser,
    pub runs: u64,
}

impl Loss {
    fn of_row(row: &BatchRow) -> Loss
        ensures { result ≡ loss_of_row row.now }
    {
        Loss {
            by: Chooser::Sampled(row.identifier),
            runs: u64::from(row.stuck) + u64::from(row.unfinished),
        }
    }

    fn beside(other: &Beside) -> Loss
        ensures { result ≡ loss_beside other.now }
    {
        Loss {
            by: other.name.chooser(),
            runs: u64::from(other.tally.stuck) + u64::from(other.tally.unfinished),
        }
    }
}

// The greater of two losses, the first of equals.
fn greater(most: Option<Loss>, next: Loss) -> Option<Loss>
    ensures { result ≡ greater_of most next }
{
    match most {
        Some(loss) if next.runs <= loss.runs => most,
        _ => Some(next),
    }
}

// The greatest loss, the first of equals: the rows stand before the schedulers beside them.
pub(crate) fn greatest_loss(rows: &[BatchRow], beside: &[Beside]) -> Option<Loss>
    ensures { IsGreatest (losses_of rows.now beside.now) result }
{
    let mut most = None;
    for row in rows {
        most = greater(most, Loss::of_row(row));
    }
    for other in beside {
        most = greater(most, Loss::beside(other));
    }
    most
}
