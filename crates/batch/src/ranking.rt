// The rows that reached the goal in the most and in the fewest runs.
ghost use Rattle.std.specs.Prelude.{◌≡◌, length, MatchOption};
ghost use Rattle.batch.specs.declared.ranking.By.TheVariants.{Fewest, Most};
ghost use Rattle.batch.specs.Rankings.{less_ranks, more_ranks, reached_less, reached_more};
ghost use Rattle.schedulers.specs.Foremost.{foremost_of};
ghost use Rattle.std.specs.List.{IsFirstBest};

use crate::BatchRow;
use schedulers::foremost::{Ranking, foremost};

// Which rows come first: those that reached most often, or least often.
#[derive(Clone, Copy)]
enum By {
    Most,
    Fewest,
}

impl Ranking<BatchRow> for By {
    ghost ahead = { elim [ Most ↦ reached_more | Fewest ↦ reached_less ] };

    ghost ranks = { elim [ Most ↦ more_ranks | Fewest ↦ less_ranks ] };

    fn beats(&self, a: &BatchRow, b: &BatchRow) -> bool {
        match self {
            By::Most => a.reached > b.reached,
            By::Fewest => a.reached < b.reached,
        }
    }
}

// The place of the row that reached most often, the first of equals; none for no rows.
pub fn most_reached(rows: &[BatchRow]) -> Option<usize>
    ensures { MatchOption result (length rows.now ≡ 0) (λ i. IsFirstBest reached_more rows.now (length rows.now) i × (i ≡ foremost_of reached_more rows.now)) }
{
    foremost(rows, &By::Most)
}

// The place of the row that reached least often, the first of equals; none for no rows.
pub fn fewest_reached(rows: &[BatchRow]) -> Option<usize>
    ensures { MatchOption result (length rows.now ≡ 0) (λ i. IsFirstBest reached_less rows.now (length rows.now) i × (i ≡ foremost_of reached_less rows.now)) }
{
    foremost(rows, &By::Fewest)
}
