// Where the rows of a plan come from: handed tables, or the bytes of a file.
ghost use Rattle.std.specs.Prelude.{◌≡◌, ◌<◌, length, slice_index_or};
ghost use Rattle.rows.specs.Plans.{PlanRows, counts_of};
ghost use Rattle.rows.specs.Verdicts.{no_change, no_comparison, no_goal, no_outcome, no_stage, no_timer};

use rows::section::Counts;
use rows::tables::{ChangeRow, ComparisonRow, GoalRow, OutcomeRow, StageRow, TimerRow};

// Rows by section and place. The rules of a plan are checked once, over any such source. Each section has its own type of row,
// and so its own method: one method over a type of row would need six impls for each source.
pub trait Records {
    ghost held: { Self → PlanRows };

    fn counts(&self) -> Counts
        ensures { result ≡ counts_of (held self.now) };

    fn timer(&self, i: usize) -> TimerRow
        requires { i < length (held self.now).timers }
        ensures { result ≡ slice_index_or (held self.now).timers i no_timer };

    fn comparison(&self, i: usize) -> ComparisonRow
        requires { i < length (held self.now).comparisons }
        ensures { result ≡ slice_index_or (held self.now).comparisons i no_comparison };

    fn stage(&self, i: usize) -> StageRow
        requires { i < length (held self.now).stages }
        ensures { result ≡ slice_index_or (held self.now).stages i no_stage };

    fn change(&self, i: usize) -> ChangeRow
        requires { i < length (held self.now).changes }
        ensures { result ≡ slice_index_or (held self.now).changes i no_change };

    fn outcome(&self, i: usize) -> OutcomeRow
        requires { i < length (held self.now).outcomes }
        ensures { result ≡ slice_index_or (held self.now).outcomes i no_outcome };

    fn goal(&self, i: usize) -> GoalRow
        requires { i < length (held self.now).goals }
        ensures { result ≡ slice_index_or (held self.now).goals i no_goal };
}
