// The waits, counted in steps, that comparisons allow.
ghost use Rattle.std.specs.Prelude.{◌≡◌, ◌*◌, ◌≤◌, map};
ghost use Rattle.offers.specs.Waits.{span_of};
ghost use Rattle.region.specs.Viewed.{viewed};
ghost use Rattle.runs.specs.Runs.{any_in, before, bounded, cut, cuts, from_on, inside, says, upto};
ghost use Rattle.runs.specs.Tables.{comparison_of_row};
ghost use Rattle.runs.specs.Telling.{AllowedWaitsAreTrueMoments};
ghost use Rattle.runs.specs.Typed.{comparison_in, relation_in};
ghost use Rattle.theory.specs.Records.{count, timer_no};

use region::Region;
use rows::reading::{Comparison, Relation, Subject};
use rows::tables::ComparisonRow;

// Some waits in a row: those that are at least `from` and below `until`. std's Range is not Copy, and has no words for what a comparison leaves of it.
#[derive(Clone, Copy, Debug, PartialEq, Eq)]
pub struct Span {
    pub from: u64,
    pub until: u64,
}

impl Span {
    // Those from 0 through `last`.
    pub fn upto(last: u32) -> Span
        ensures { span_of result ≡ upto last }
    {
        Span {
            from: 0,
            until: u64::from(last) + 1,
        }
    }

    // Whether there is any.
    pub fn is_some(self) -> bool
        ensures { result ≡ any_in (span_of self) }
    {
        self.from < self.until
    }

    // Whether a wait is one of them.
    pub fn has(self, wait: u32) -> bool
        ensures { result ≡ inside wait (span_of self) }
    {
        (self.from..self.until).contains(&u64::from(wait))
    }

    // Those that are at least n.
    fn from_on(self, n: u64) -> Span
        ensures { span_of result ≡ from_on n (span_of self) }
    {
        Span {
            from: self.from.max(n),
            until: self.until,
        }
    }

    // Those that are below n.
    fn before(self, n: u64) -> Span
        ensures { span_of result ≡ before n (span_of self) }
    {
        Span {
            from: self.from,
            until: self.until.min(n),
        }
    }
}

// The steps that a timer takes in so many seconds: at most 32 a second, for sixteen classes. Where a wait is no longer, its contract says so by this number: a type that keeps it would be opened again at each sum.
pub(crate) fn steps(region: &Region, seconds: u16) -> u32
    ensures steps { result ≡ 2 * (viewed region.now).classes * seconds }
    ensures few { result ≤ 32 * 65535 }
{
    region.steps_per_second() * u32::from(seconds)
}

// How many steps after zero a timer stands. One that is not there counts as a timer at zero seconds with the smallest fraction.
pub(crate) fn count(region: &Region, timer: usize) -> u32
    ensures { result ≡ count (viewed region.now) (timer_no (viewed region.now) timer) }
{
    region.count(timer).unwrap_or(u32::from(!region.is_whole()))
}

// The waits after which a timer with this count stands so to a bound.
fn bounded(relation: Relation, count: u32, bound: u32, span: Span) -> Span
    ensures { span_of result ≡ bounded (relation_in relation) count bound (span_of span) }
{
    let count = u64::from(count);
    let bound = u64::from(bound);
    match relation {
        Relation::AtLeast => span.from_on(bound.saturating_sub(count)),
        Relation::Above => span.from_on((bound + 1).saturating_sub(count)),
        Relation::AtMost => span.before((bound + 1).saturating_sub(count)),
        Relation::Below => span.before(bound.saturating_sub(count)),
    }
}

// Whether the first number stands so to the second.
fn says(relation: Relation, a: u64, b: u64) -> bool
    ensures { result ≡ says (relation_in relation) a b }
{
    match relation {
        Relation::AtLeast => a >= b,
        Relation::Above => a > b,
        Relation::AtMost => a <= b,
        Relation::Below => a < b,
    }
}

// The waits of a span that a comparison allows. A timer's lead stays as it is, so it allows all of them or none.
pub fn cut(region: &Region, comparison: Comparison, span: Span) -> Span
    ensures { span_of result ≡ cut (viewed region.now) (comparison_in comparison) (span_of span) }
{
    let bound = steps(region, comparison.constant);
    match comparison.subject {
        Subject::Timer(timer) => {
            let count = count(region, usize::from(timer));
            bounded(comparison.relation, count, bound, span)
        }
        Subject::Lead(timer, other) => {
            let led = u64::from(count(region, usize::from(other))) + u64::from(bound);
            let ahead = u64::from(count(region, usize::from(timer)));
            if says(comparison.relation, ahead, led) {
                span
            } else {
                span.before(0)
            }
        }
    }
}

// The waits of a span that every comparison of a list allows.
pub fn cuts(region: &Region, list: &[ComparisonRow], span: Span) -> Span
    ensures allowed_waits_are_true_moments { AllowedWaitsAreTrueMoments }
    ensures value { span_of result ≡ cuts (viewed region.now) (map comparison_of_row list.now) (span_of span) }
{
    let mut left = span;
    // A plain loop over the list of comparisons, as the project fixes it.
    for row in list {
        left = cut(region, row.reading(), left);
    }
    left
}
