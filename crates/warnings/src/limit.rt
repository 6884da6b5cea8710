// The upper limit that a comparison sets on one timer.
ghost use Rattle.std.specs.Prelude.{◌≡◌};
ghost use Rattle.runs.specs.Tables.{comparison_of_row};
ghost use Rattle.warnings.specs.Limits.{allowed_by, bound_by, upper_limit};

use rows::reading::{Relation, Subject};
use rows::tables::ComparisonRow;

// A timer, and the seconds that it may show at most.
#[derive(Clone, Copy, Debug, PartialEq, Eq)]
pub(crate) struct Limit {
    pub(crate) timer: u8,
    pub(crate) seconds: u16,
}

impl Limit {
    // The upper limit of a comparison, if it sets one on a single timer.
    pub(crate) fn of_row(row: ComparisonRow) -> Option<Limit>
        ensures { result ≡ upper_limit (comparison_of_row row) }
    {
        let comparison = row.reading();
        match (comparison.subject, comparison.relation) {
            (Subject::Timer(timer), Relation::AtMost | Relation::Below) => Some(Limit {
                timer,
                seconds: comparison.constant,
            }),
            _ => None,
        }
    }

    // The most seconds that a timer can show while the limit is kept, if it showed at most
    // `arrived` on arrival.
    pub(crate) fn allows(self, timer: usize, arrived: u16) -> u32
        ensures { result ≡ allowed_by timer arrived self }
    {
        if usize::from(self.timer) == timer {
            u32::from(arrived.max(self.seconds))
        } else {
            u32::from(arrived) + u32::from(self.seconds)
        }
    }

    // The seconds of a timer by which the limit ends every wait: a limit on another timer lets at
    // most its seconds pass after the arrival.
    pub(crate) fn ends(self, timer: usize, arrived: u16) -> u32
        ensures { result ≡ bound_by timer arrived self }
    {
        if usize::from(self.timer) == timer {
            u32::from(self.seconds)
        } else {
            u32::from(arrived) + u32::from(self.seconds)
        }
    }
}
