// Calls in words: `take CHANGE WAIT`, `step SCHEDULER`, `offers` and `standing`.
ghost use Rattle.std.specs.Prelude.{◌≡◌, [], ◌∷◌, MatchOption, codes, slice_get};
ghost use Rattle.std.specs.Option.{option_copied};
ghost use Rattle.describe.specs.Calls.{AskFor, Asks};
ghost use Rattle.describe.specs.Names.{Names};
ghost use Rattle.describe.specs.Words.{words_of};
ghost use Rattle.run.specs.declared.call.Call.{Call};
ghost use Rattle.schedulers.specs.declared.chooser.Chooser.{Chooser};

use crate::numbers::number;
use run::call::Call;
use schedulers::chooser::Chooser;

// The scheduler that a word names: `earliest`, `latest`, or the identifier of a sampled one. No FromStr here and at `call`, since the types
// are of other crates.
pub fn named_scheduler(word: &str) -> Option<Chooser>
    ensures { MatchOption result ((s : Chooser) → Names word.now s → ⊥) (λ s. Names word.now s) }
{
    match word {
        "earliest" => Some(Chooser::Earliest),
        "latest" => Some(Chooser::Latest),
        _ => Some(Chooser::Sampled(number(word)?)),
    }
}

// The call of a change after a wait.
fn take(change: &str, wait: &str) -> Option<Call<Chooser>>
    ensures { let words = codes "take" ∷ change.now ∷ wait.now ∷ [] in
        MatchOption result ((c : Call Chooser) → AskFor words c → ⊥) (λ c. AskFor words c) }
{
    let change = u16::try_from(number(change)?).ok()?;
    let wait = number(wait)?;
    Some(Call::Take { change, wait })
}

// The first four words of a line, as far as there are any. Words stand apart by spaces.
fn first_words(line: &str) -> (Option<&str>, Option<&str>, Option<&str>, Option<&str>)
    ensures first { option_copied result.0 ≡ slice_get (words_of line.now) 0 }
    ensures second { option_copied result.1 ≡ slice_get (words_of line.now) 1 }
    ensures third { option_copied result.2 ≡ slice_get (words_of line.now) 2 }
    ensures fourth { option_copied result.3 ≡ slice_get (words_of line.now) 3 }
{
    let mut words = line.split(' ').filter(|word| !word.is_empty());
    (words.next(), words.next(), words.next(), words.next())
}

// The call that a line asks for, if it asks for one.
pub fn call(line: &str) -> Option<Call<Chooser>>
    ensures { MatchOption result ((c : Call Chooser) → Asks line.now c → ⊥)
        (λ c. Asks line.now c) }
{
    match first_words(line) {
        (Some("take"), Some(change), Some(wait), None) => take(change, wait),
        // Not by `named_scheduler`: there a number alone is a sampled one, here `sampled` is said.
        (Some("step"), Some("earliest"), None, None) => Some(Call::Step(Chooser::Earliest)),
        (Some("step"), Some("latest"), None, None) => Some(Call::Step(Chooser::Latest)),
        (Some("step"), Some("sampled"), Some(identifier), None) => {
            Some(Call::Step(Chooser::Sampled(number(identifier)?)))
        }
        (Some("offers"), None, None, None) => Some(Call::Offers),
        (Some("standing"), None, None, None) => Some(Call::Standing),
        _ => None,
    }
}
