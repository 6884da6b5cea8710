// What the calls of a run answer with, and what is proved of runs. Each function with no arguments stands for a theorem, which is its contract.
#![tactic(auto)]

ghost use Rattle.std.specs.Prelude.{◌≡◌, true, replicate};
ghost use Rattle.region.specs.Reads.{timers_for};
ghost use Rattle.region.specs.Viewed.{viewed};
ghost use Rattle.runs.specs.Runs.{is_open};
ghost use Rattle.runs.specs.Telling.{EveryListOfCallsTellsATickRun, EveryTickRunIsTold, AStepChoosesAsItsSchedulerMeans, EveryCallKeepsARunInBounds};
ghost use Rattle.theory.specs.Records.{fresh, record_of};

use region::Region;

// How a run stands: going on, at its goal, in a stage to avoid, or with nothing left to happen.
#[derive(Clone, Copy, Debug, PartialEq, Eq)]
pub enum Standing {
    Open,
    Reached,
    Failed,
    Stuck,
}

impl Standing {
    // Whether a run that stands so may go on.
    pub fn is_open(self) -> bool
        ensures { result ≡ is_open self }
    {
        matches!(self, Standing::Open)
    }
}

// Where a run is: its stage, and the region of its timers.
#[derive(Clone, Copy, Debug, PartialEq, Eq)]
pub struct State {
    pub stage: u16,
    pub region: Region,
}

impl State {
    // Where a run of so many timers begins: in stage 0, all timers at zero.
    pub fn opening(timers: usize) -> State
        ensures first_stage { result.stage ≡ 0 }
        ensures at_zero { viewed result.region ≡ record_of 1 (replicate (timers_for timers) 0) }
        ensures told { viewed result.region ≡ record { whole = true; classes = 1; timers = replicate (timers_for timers) fresh } }
    {
        State {
            stage: 0,
            region: Region::opening(timers),
        }
    }
}

// A change that may happen, with the first and the last wait after which it may.
#[derive(Clone, Copy, Debug, Default, PartialEq, Eq)]
pub struct Offer {
    pub change: u16,
    pub lowest: u32,
    pub highest: u32,
}

// What a granted take or step answers.
#[derive(Clone, Copy, Debug, PartialEq, Eq)]
pub enum Answer {
    Taken {
        change: u16,
        wait: u32,
        outcome: u16,
    },
    Met {
        wait: u32,
    },
    RanOut,
}

// Every list of calls tells some tick run, with one fineness for the whole list.
#[tactic(auto, using(crate::proofs::Whole::every_list_of_calls_tells_a_tick_run))]
pub fn every_list_of_calls_tells_a_tick_run()
    ensures { EveryListOfCallsTellsATickRun }
{}

// Every tick run is told by granted calls.
pub fn every_tick_run_is_told()
    ensures { EveryTickRunIsTold }
{}

// A step is refused with 8 or 12 only, and makes the choice of its scheduler.
#[tactic(auto, using(crate::proofs::Choosing::a_step_chooses_as_its_scheduler_means))]
pub fn a_step_chooses_as_its_scheduler_means()
    ensures { AStepChoosesAsItsSchedulerMeans }
{}

// Every run on a sound plan keeps its timers under their ceilings and in a stage of the plan.
#[tactic(auto, using(crate::proofs::Bounds::every_call_keeps_a_run_in_bounds))]
pub fn every_call_keeps_a_run_in_bounds()
    ensures { EveryCallKeepsARunInBounds }
{}
