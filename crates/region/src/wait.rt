// A wait of any number of steps at once.
ghost use Rattle.std.specs.Prelude.{◌≡◌, ◌+◌, ◌*◌, ◌≤◌, true, false, map, take, is_err, Decides, nat_lt};
ghost use Rattle.region.specs.Viewed.{viewed};
ghost use Rattle.region.specs.Views.{timer_in};
ghost use Rattle.region.specs.Waiting.{InTime, PastACeiling, ceiling_no, passes, row_at, waited};
ghost use Rattle.theory.specs.Records.{count, wait};
ghost use Rattle.theory.specs.Theorems.{AWaitCrossesWhatTimeCrosses, OneStepIsTheNextRegion, StepsAtOnceAreSingleSteps};

use crate::Region;
use crate::value::TimerValue;
use rows::refusal::Refusal;
use rows::tables::TimerRow;

// The seconds that a timer never passes, and 0 where none are given.
fn ceiling_of(ceilings: &[TimerRow], timer: usize) -> u16
    ensures { result ≡ ceiling_no ceilings.now timer }
{
    ceilings.get(timer).map_or(0, |row| row.ceiling)
}

impl Region {
    // Whether a timer that has this row would stand past so many seconds so many steps from now.
    fn timer_passes(&self, row: TimerValue, steps: u32, ceiling: u16) -> bool
        ensures tells { result ≡ nat_lt (2 * self.now.classes * ceiling) (count (viewed self.now) (timer_in row) + steps) }
        ensures bounds { result ≡ false → count (viewed self.now) (timer_in row) + steps ≤ 2 * self.now.classes * 65535 }
    {
        let limit = self.steps_per_second() * u32::from(ceiling);
        u64::from(self.count_of(row)) + u64::from(steps) > u64::from(limit)
    }

    // Whether some timer would stand past its ceiling so many steps from now.
    fn passes(&self, steps: u32, ceilings: &[TimerRow]) -> bool
        ensures tells { result ≡ passes ceilings.now steps (viewed self.now) }
        ensures in_time { result ≡ false → InTime steps (viewed self.now) }
    {
        self.values().iter().enumerate().any(|(timer, row)| self.timer_passes(
            *row,
            steps,
            ceiling_of(ceilings, timer),
        ))
    }

    // The row of a timer that stands so many steps after zero.
    fn row_at(&self, count: u64) -> TimerValue
        requires { count ≤ 2 * self.now.classes * 65535 }
        ensures { result ≡ row_at self.now.classes count }
    {
        let second = u64::from(self.steps_per_second());
        TimerValue {
            seconds: (count / second) as u16,
            rank: (count % second / 2) as u8,
        }
    }

    // The rows so many steps from now.
    fn rows_after(&self, steps: u32) -> [TimerValue; 16]
        requires { InTime steps (viewed self.now) }
        ensures { map timer_in (take self.now.number result) ≡ (wait steps (viewed self.now)).timers }
    {
        let mut rows = self.rows;
        for row in &mut rows[..self.timers()] {
            *row = self.row_at(u64::from(self.count_of(*row)) + u64::from(steps));
        }
        rows
    }

    // Lets every timer run for so many steps. A wait past a timer's ceiling is refused and alters nothing.
    #[tactic(auto, using(theory::proofs::Theorems::a_wait_crosses_what_time_crosses, theory::proofs::Theorems::one_step_is_the_next_region, theory::proofs::Theorems::steps_at_once_are_single_steps))]
    pub fn wait(&mut self, steps: u32, ceilings: &[TimerRow]) -> Result<(), Refusal>
        ensures a_wait_crosses_what_time_crosses { AWaitCrossesWhatTimeCrosses }
        ensures one_step_is_the_next_region { OneStepIsTheNextRegion }
        ensures steps_at_once_are_single_steps { StepsAtOnceAreSingleSteps }
        ensures answer { waited ceilings.now steps (viewed self.old) ≡ (result, viewed self.new) }
        ensures refused_past_a_ceiling { Decides (is_err result) (PastACeiling ceilings.now steps (viewed self.old)) }
        ensures refused_unchanged { is_err result ≡ true → self.new ≡ self.old }
    {
        if self.passes(steps, ceilings) {
            return Err(Refusal::WaitOutsideHold);
        }
        let whole = (u64::from(self.edge()) + u64::from(steps)) % 2 == 0;
        *self = Region {
            whole,
            classes: self.classes,
            number: self.number,
            rows: self.rows_after(steps),
        };
        Ok(())
    }
}
