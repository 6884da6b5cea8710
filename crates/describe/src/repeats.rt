// Identifiers that a list has twice, found by its identifiers in order.
ghost use Rattle.std.specs.Prelude.{◌≡◌, ◌⊎◌, ℕ, ◌≤◌, IfOk, MatchOption, length};
ghost use Rattle.std.specs.List.Sorted.{IsPermutation, IsSorted};
ghost use Rattle.describe.specs.Identifiers.{AllDiffer, IsFirstRepeat};
ghost use Rattle.describe.specs.Repeats.{IsAgain, by_number_and_place, with_places};

use crate::identifiers::listed_twice;
use std::alloc::{AllocError, Global};

// The identifiers of a list, each with its place.
fn with_their_places(heap: Global, identifiers: &[u32]) -> Result<Vec<(u32, usize)>, AllocError>
    ensures { IfOk result (λ v. v.items ≡ with_places identifiers.now) }
{
    identifiers
        .iter()
        .copied()
        .enumerate()
        .map(|(place, n)| (n, place))
        .collect(heap)
}

// The identifiers of a list in order, each with its place.
fn sorted_with_places(heap: Global, identifiers: &[u32]) -> Result<Vec<(u32, usize)>, AllocError>
    ensures all { IfOk result (λ v. IsPermutation (with_places identifiers.now) v.items) }
    ensures sorted { IfOk result (λ v. IsSorted by_number_and_place v.items) }
{
    let mut sorted = with_their_places(heap, identifiers)?;
    sorted.sort_unstable();
    Ok(sorted)
}

// The earliest place of an identifier that is equal to the one before it in order, or else how
// many identifiers there are.
fn earliest_again(sorted: &[(u32, usize)]) -> usize
    ensures again { IsAgain sorted.now result ⊎ (result ≡ length sorted.now) }
    ensures none_earlier { (place : ℕ) → IsAgain sorted.now place → result ≤ place }
{
    let mut earliest = sorted.len();
    for i in 1..sorted.len() {
        if sorted[i - 1].0 == sorted[i].0 {
            earliest = earliest.min(sorted[i].1);
        }
    }
    earliest
}

// The first identifier that also stands at an earlier place of the list, if one does. A long list
// takes hardly more for each identifier than a short one, except where memory is out.
pub fn first_repeat(heap: Global, identifiers: &[u32]) -> Option<u32>
    ensures { MatchOption result (AllDiffer identifiers.now) (IsFirstRepeat identifiers.now) }
{
    match sorted_with_places(heap, identifiers) {
        Ok(sorted) => identifiers.get(earliest_again(&sorted)).copied(),
        Err(_) => listed_twice(identifiers),
    }
}
