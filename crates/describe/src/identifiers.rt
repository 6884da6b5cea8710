// Identifiers of schedulers in words: `0..9`, or `3,5,8`.
ghost use Rattle.std.specs.Prelude.{◌≡◌, ℕ, ◌<◌, ◌≤◌, List, length, IfOk, MatchOption};
ghost use Rattle.describe.specs.Identifiers.{AllDiffer, IsFirstRepeat, Lists, numbers_from_to};
ghost use Rattle.describe.specs.Identifiers.{parts_of};
ghost use Rattle.describe.specs.Words.{WriteAll};

use crate::numbers::number;
use batch::MOST_IDENTIFIERS;
use std::alloc::{AllocError, Global};

// The identifiers from the first to the last.
fn counted(heap: Global, first: u32, last: u32) -> Result<Option<Vec<u32>>, AllocError>
    ensures { let all = numbers_from_to first last in
        IfOk result (λ o. MatchOption o (first ≤ last → 1000 < length all)
        (λ v. (first ≤ last) × (v.items ≡ all) × (length v.items ≤ 1000))) }
{
    match last.checked_sub(first) {
        Some(more) if (more as usize) < MOST_IDENTIFIERS => Ok(Some((first..=last).collect(heap)?)),
        _ => Ok(None),
    }
}

// The identifiers of a list with commas.
fn listed(heap: Global, word: &str) -> Result<Option<Vec<u32>>, AllocError>
    ensures { let parts = parts_of word.now in
        IfOk result (λ o. MatchOption o
        ((ids : List ℕ) → length ids ≤ 1000 → WriteAll parts ids → ⊥)
        (λ v. WriteAll parts v.items × (length v.items ≤ 1000))) }
{
    let mut identifiers = Vec::new(heap);
    for part in word.split(',') {
        match number(part) {
            Some(n) if identifiers.len() < MOST_IDENTIFIERS => identifiers.push(n)?,
            _ => return Ok(None),
        }
    }
    Ok(Some(identifiers))
}

// The identifiers that a word names, at most as many as a batch may have: from the first to the
// last, or a list with commas. That a word names none is no error: the one error is that memory
// is out.
pub fn identifiers(heap: Global, word: &str) -> Result<Option<Vec<u32>>, AllocError>
    ensures { IfOk result (λ o. MatchOption o ((ids : List ℕ) → Lists word.now ids → ⊥)
        (λ v. Lists word.now v.items)) }
{
    match word.split_once("..") {
        Some((first, last)) => match (number(first), number(last)) {
            (Some(first), Some(last)) => counted(heap, first, last),
            _ => Ok(None),
        },
        None => listed(heap, word),
    }
}

// The first identifier that also stands at an earlier place of the list, if one does. Each is
// looked for among those before it, which takes no memory.
pub fn listed_twice(identifiers: &[u32]) -> Option<u32>
    ensures { MatchOption result (AllDiffer identifiers.now) (IsFirstRepeat identifiers.now) }
{
    for i in 0..identifiers.len() {
        if identifiers[..i].contains(&identifiers[i]) {
            return Some(identifiers[i]);
        }
    }
    None
}
