// A reset of some timers to zero.
ghost use Rattle.std.specs.Prelude.{◌≡◌, ℕ, Bool, List, ◌+◌, ◌<◌, ◌≤◌, true, map, take, is_err, if◌then◌else◌, slice_index};
ghost use Rattle.region.specs.Resetting.{Placed, marks, reset_by};
ghost use Rattle.region.specs.Viewed.{viewed};
ghost use Rattle.region.specs.Views.{timer_in};
ghost use Rattle.theory.specs.Records.{fresh, live, ranked, reranked};
ghost use Rattle.theory.specs.Settings.{marked, total, unmarked};
ghost use Rattle.theory.specs.Theorems.{ResettingTheTimersResetsTheRecord};

use crate::Region;
use crate::value::TimerValue;
use rows::refusal::Refusal;
use rows::tables::{names, names_past};

// The place of each rank, and of one more, among zero and the live classes.
fn places(live: &[u8; 16]) -> [u8; 17]
    requires { (j : ℕ) → j < 16 → slice_index live.now j ≤ 1 }
    ensures { (j : ℕ) → j < 17 → slice_index result j ≡ 1 + total (λ x. slice_index live.now x) j }
{
    let mut places = [1; 17];
    for (rank, class) in live.iter().enumerate() {
        places[rank + 1] = places[rank] + *class;
    }
    places
}

impl Region {
    // 1 at each rank that a timer has which is not named. Numbers and no flags, since `places` sums them.
    fn held_ranks(&self, timers: u16) -> [u8; 16]
        ensures { (j : ℕ) → j < 16 → slice_index result j ≡ ranked (unmarked (marks self.now.number timers) (viewed self.now).timers) j }
    {
        let mut held = [0; 16];
        for (timer, row) in self.values().iter().enumerate() {
            if !names(timers, timer) {
                held[usize::from(row.rank)] = 1;
            }
        }
        held
    }

    // 1 at the rank of each live class: one above zero that a timer has which is not named. Numbers, as in `held_ranks`.
    #[tactic(auto, using(crate::proofs::Placed::live_written, crate::proofs::Placed::live_kept))]
    fn live_classes(&self, timers: u16) -> [u8; 16]
        ensures { (j : ℕ) → j < 16 → slice_index result j ≡ live (marks self.now.number timers) (viewed self.now) j }
    {
        let mut live = self.held_ranks(timers);
        if self.whole {
            live[0] = 0;
        }
        live
    }

    // The place of each rank, and of one more, among zero and the classes that live on.
    fn places_after(&self, timers: u16) -> [u8; 17]
        ensures { Placed result (marks self.now.number timers) (viewed self.now) }
    {
        places(&self.live_classes(timers))
    }

    // The row of a timer after the reset. One that is not named keeps its seconds, and takes its place among zero and the live classes.
    fn row_reset(&self, row: TimerValue, is_named: bool, places: &[u8; 17]) -> TimerValue
        requires { row.rank < self.now.classes }
        ensures { (named : List Bool) → Placed places.now named (viewed self.now) → timer_in result ≡ (if is_named then fresh else reranked named (viewed self.now) (timer_in row)) }
    {
        if is_named {
            return TimerValue::default();
        }
        if self.whole && row.rank == 0 {
            return row;
        }
        TimerValue {
            seconds: row.seconds,
            rank: places[usize::from(row.rank)],
        }
    }

    // The rows after the reset.
    fn rows_reset(&self, timers: u16, places: &[u8; 17]) -> [TimerValue; 16]
        requires { Placed places.now (marks self.now.number timers) (viewed self.now) }
        ensures { map timer_in (take self.now.number result) ≡ marked fresh (reranked (marks self.now.number timers) (viewed self.now)) (marks self.now.number timers) (viewed self.now).timers }
    {
        let mut rows = self.rows;
        for (timer, row) in rows[..self.timers()].iter_mut().enumerate() {
            *row = self.row_reset(*row, names(timers, timer), places);
        }
        rows
    }

    // Sets the named timers to zero: bit i of `timers` names timer i. One that names a missing timer is refused and alters nothing.
    #[tactic(auto, using(theory::proofs::Theorems::resetting_the_timers_resets_the_record))]
    pub fn reset(&mut self, timers: u16) -> Result<(), Refusal>
        ensures resetting_the_timers_resets_the_record { ResettingTheTimersResetsTheRecord }
        ensures answer { reset_by timers (viewed self.old) ≡ (result, viewed self.new) }
        ensures refused_unchanged { is_err result ≡ true → self.new ≡ self.old }
        ensures none_named_unchanged { timers ≡ 0 → self.new ≡ self.old }
    {
        if names_past(timers, self.timers()) {
            return Err(Refusal::NotThere);
        }
        if timers == 0 {
            return Ok(());
        }
        let places = self.places_after(timers);
        *self = Region {
            whole: true,
            classes: places[usize::from(self.classes)],
            number: self.number,
            rows: self.rows_reset(timers, &places),
        };
        Ok(())
    }
}
