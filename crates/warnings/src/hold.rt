// How a hold ends the waits in a stage.
ghost use Rattle.std.specs.Prelude.{◌≡◌, fold, map};
ghost use Rattle.runs.specs.Tables.{comparison_of_row};
ghost use Rattle.warnings.specs.Limits.{ends_in_time, ended_by, narrowed};

use crate::limit::Limit;
use rows::tables::ComparisonRow;

// What a comparison leaves of the most seconds that a timer can show, if it showed at most
// `arrived` on arrival.
fn narrowed(most: u16, timer: usize, arrived: u16, row: ComparisonRow) -> u16
    ensures { result ≡ narrowed timer arrived most (comparison_of_row row) }
{
    match Limit::of_row(row) {
        Some(limit) => limit.allows(timer, arrived).min(u32::from(most)) as u16,
        None => most,
    }
}

// The most seconds that a timer can show while a hold allows waits, if it showed at most `arrived`
// on arrival and stops at the ceiling.
pub(crate) fn most_held(hold: &[ComparisonRow], timer: usize, arrived: u16, ceiling: u16) -> u16
    ensures { result ≡ fold (narrowed timer arrived) ceiling (map comparison_of_row hold.now) }
{
    let mut most = ceiling;
    for row in hold {
        most = narrowed(most, timer, arrived, *row);
    }
    most
}

// Whether a comparison ends the waits in a stage before a timer passes its ceiling.
fn ends_in_time(row: ComparisonRow, timer: usize, arrived: u16, ceiling: u16) -> bool
    ensures { result ≡ ends_in_time timer arrived ceiling (comparison_of_row row) }
{
    match Limit::of_row(row) {
        Some(limit) => limit.ends(timer, arrived) <= u32::from(ceiling),
        None => false,
    }
}

// Whether a hold ends the waits in a stage before a timer passes its ceiling.
pub(crate) fn is_ended_in_time(
    hold: &[ComparisonRow],
    timer: usize,
    arrived: u16,
    ceiling: u16,
) -> bool
    ensures { result ≡ ended_by timer arrived ceiling (map comparison_of_row hold.now) }
{
    hold.iter()
        .any(|row| ends_in_time(*row, timer, arrived, ceiling))
}
