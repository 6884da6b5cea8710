// The foremost entry of a list by a given ranking.
ghost use Rattle.std.specs.Prelude.{◌≡◌, Bool, length, MatchOption};
ghost use Rattle.std.specs.Cmp.{IsStrictWeakOrder};
ghost use Rattle.std.specs.List.{IsFirstBest};
ghost use Rattle.schedulers.specs.Foremost.{foremost_of};

// A total ranking: which of two entries is ahead of the other, if one is.
// It is a type of its own and no closure, so that its order is proved once, beside it: of a closure each caller of `foremost` would owe that proof.
pub trait Ranking<T> {
    ghost ahead: { Self → T → T → Bool };

    fn beats(&self, a: &T, b: &T) -> bool
        ensures { result ≡ ahead self.now a.now b.now };

    ghost ranks: { (s : Self) → IsStrictWeakOrder (ahead s) };
}

// The place of the foremost entry, the first of equals; none for an empty list.
pub fn foremost<T, R: Ranking<T>>(entries: &[T], ranking: &R) -> Option<usize>
    ensures { MatchOption result (length entries.now ≡ 0) (λ i. IsFirstBest (R.Ranking.ahead ranking.now) entries.now (length entries.now) i × (i ≡ foremost_of (R.Ranking.ahead ranking.now) entries.now)) }
{
    if entries.is_empty() {
        return None;
    }
    let mut place = 0;
    // From 1 on, since the first entry is the foremost so far. Tried: `iter().enumerate().skip(1)`, which left the bound of `entries[place]` unproved.
    for i in 1..entries.len() {
        if ranking.beats(&entries[i], &entries[place]) {
            place = i;
        }
    }
    Some(place)
}
