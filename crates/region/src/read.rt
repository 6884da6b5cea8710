// Regions at zero, and what a region tells.
ghost use Rattle.std.specs.Prelude.{◌≡◌, ◌*◌, true, map, length, replicate};
ghost use Rattle.region.specs.Reads.{count_no, row_no, timers_for, values_in};
ghost use Rattle.region.specs.Viewed.{viewed};
ghost use Rattle.region.specs.Views.{timer_in};
ghost use Rattle.theory.specs.Records.{count, edge, fresh, record_of};
ghost use Rattle.theory.specs.Theorems.{EveryRecordHasItsRegion, FinerTicksTellTheSame};

use crate::Region;
use crate::value::TimerValue;

// The steps of a second, for one class up to sixteen. The project fixes that they are a table.
const STEPS_OF_SECOND: [u32; 16] = [2, 4, 6, 8, 10, 12, 14, 16, 18, 20, 22, 24, 26, 28, 30, 32];

impl Region {
    // The region of so many timers at zero. None is taken for one timer, and more than sixteen for sixteen.
    #[tactic(auto, using(theory::proofs::Theorems::every_record_has_its_region))]
    pub fn opening(timers: usize) -> Region
        ensures every_record_has_its_region { EveryRecordHasItsRegion }
        ensures at_zero { viewed result ≡ record_of 1 (replicate (timers_for timers) 0) }
        ensures told { viewed result ≡ record { whole = true; classes = 1; timers = replicate (timers_for timers) fresh } }
    {
        let number = timers.clamp(1, 16) as u8;
        Region {
            whole: true,
            classes: 1,
            number,
            rows: [TimerValue::default(); 16],
        }
    }

    // Whether some timer stands at a whole second.
    pub fn is_whole(&self) -> bool
        ensures { result ≡ (viewed self.now).whole }
    {
        self.whole
    }

    // How many different fractions the timers have.
    pub fn classes(&self) -> u8
        ensures { result ≡ (viewed self.now).classes }
    {
        self.classes
    }

    // How many timers there are.
    pub fn timers(&self) -> usize
        ensures { result ≡ length (viewed self.now).timers }
    {
        usize::from(self.number)
    }

    // What the region says of each timer, in their order.
    pub fn values(&self) -> &[TimerValue]
        ensures rows { result.now ≡ values_in self.now }
        ensures timers { map timer_in result.now ≡ (viewed self.now).timers }
    {
        &self.rows[..self.timers()]
    }

    // What the region says of a timer, if there is such a timer.
    pub fn timer(&self, timer: usize) -> Option<TimerValue>
        ensures { result ≡ row_no self.now timer }
    {
        self.values().get(timer).copied()
    }

    // How many steps every timer takes in a second.
    #[tactic(auto, using(theory::proofs::Theorems::finer_ticks_tell_the_same))]
    pub fn steps_per_second(&self) -> u32
        ensures finer_ticks_tell_the_same { FinerTicksTellTheSame }
        ensures steps { result ≡ 2 * (viewed self.now).classes }
    {
        STEPS_OF_SECOND[usize::from(self.classes) - 1]
    }

    // 0 if some timer stands at a whole second, and else 1.
    pub(crate) fn edge(&self) -> u32
        ensures { result ≡ edge (viewed self.now) }
    {
        u32::from(!self.whole)
    }

    // How many steps after zero a timer stands that has this row.
    pub(crate) fn count_of(&self, row: TimerValue) -> u32
        ensures counts { result ≡ count (viewed self.now) (timer_in row) }
    {
        self.steps_per_second() * u32::from(row.seconds) + 2 * u32::from(row.rank) + self.edge()
    }

    // How many steps after zero a timer stands, if there is such a timer.
    pub fn count(&self, timer: usize) -> Option<u32>
        ensures { result ≡ count_no (viewed self.now) timer }
    {
        self.timer(timer).map(|row| self.count_of(row))
    }
}
