// Comparisons that are never true together.
ghost use Rattle.std.specs.Prelude.{◌≡◌, map};
ghost use Rattle.runs.specs.Tables.{comparison_of_row};
ghost use Rattle.runs.specs.Typed.{relation_in};
ghost use Rattle.warnings.specs.Warned.{contradicts_itself, is_ruled_out_by, leaves_no_room};
ghost use Rattle.warnings.specs.Warned.{never_both};

use rows::reading::{Relation, Subject};
use rows::tables::ComparisonRow;

// Whether no number stands from below so to `least` and, at once, from above so to `most`.
fn leaves_no_room(lower: Relation, least: u16, upper: Relation, most: u16) -> bool
    ensures { result ≡ leaves_no_room (relation_in lower) least (relation_in upper) most }
{
    match (lower, upper) {
        (Relation::AtLeast, Relation::AtMost) => most < least,
        (Relation::Above, Relation::AtMost) => most <= least,
        (Relation::AtLeast | Relation::Above, Relation::Below) => most <= least,
        _ => false,
    }
}

// Whether a comparison from below and one from above are of the same timer and at no moment both
// true.
fn are_never_both(row: ComparisonRow, other: ComparisonRow) -> bool
    ensures { result ≡ never_both (comparison_of_row row) (comparison_of_row other) }
{
    let lower = row.reading();
    let upper = other.reading();
    match (lower.subject, upper.subject) {
        (Subject::Timer(low), Subject::Timer(high)) => {
            low == high
                && leaves_no_room(
                    lower.relation,
                    lower.constant,
                    upper.relation,
                    upper.constant,
                )
        }
        _ => false,
    }
}

// Whether some of these comparisons is never true together with another, which is from below.
pub(crate) fn is_ruled_out_by(others: &[ComparisonRow], row: ComparisonRow) -> bool
    ensures { result ≡ is_ruled_out_by (map comparison_of_row others.now) (comparison_of_row row) }
{
    others.iter().any(|other| are_never_both(row, *other))
}

// Whether two comparisons of a guard are never both true.
pub(crate) fn contradicts_itself(guard: &[ComparisonRow]) -> bool
    ensures { result ≡ contradicts_itself (map comparison_of_row guard.now) }
{
    guard.iter().any(|row| is_ruled_out_by(guard, *row))
}
