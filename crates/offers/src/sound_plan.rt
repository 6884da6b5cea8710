// A plan that can be run.
ghost use Rattle.std.specs.Prelude.{◌≡◌, true};
ghost use Rattle.offers.specs.Checked.{blank_rows, checked};
ghost use Rattle.plan.specs.Handed.{held_by};
ghost use Rattle.rows.specs.Verdicts.{faultless};
ghost use Rattle.runs.specs.Plans.{Sound, blank_plan};
ghost use Rattle.runs.specs.Tables.{plan_in};

use plan::handed::{Handed, Tables};
use plan::tables::check_tables;
use rows::tables::{GoalRow, StageRow, TimerRow};

// The tables of a sound plan, each as long as the plan counts.
#[derive(Clone, Copy)]
pub struct Plan<'a> {
    pub(crate) rows: Tables<'a>,
    ghost sound: { faultless (held_by rows) ≡ true },
}

// The tables of the plan in which nothing can happen: one timer, which may run for a second, a stage with no mark, no hold and no change, and a goal with no comparison.
// Rows of zeros are written out, since a slice that outlives every caller is made of constants, and a default is none.
fn blank_tables() -> Tables<'static>
    ensures { held_by result ≡ blank_rows }
{
    Tables {
        timers: &[TimerRow { ceiling: 1 }],
        comparisons: &[],
        stages: &[StageRow {
            mark: 0,
            first_hold: 0,
            holds: 0,
            first_change: 0,
            changes: 0,
        }],
        changes: &[],
        outcomes: &[],
        goals: &[GoalRow {
            first: 0,
            comparisons: 0,
        }],
    }
}

// The rows of handed tables that are counted if they pass the check, and else the blank ones.
// By the rules a run opens on the blank plan where tables do not pass, so the fault is not answered here.
fn checked_rows(handed: Handed<'_>) -> Tables<'_>
    ensures { held_by result ≡ checked handed.entry }
{
    if check_tables(handed).is_ok() {
        handed.rows()
    } else {
        blank_tables()
    }
}

impl<'a> Plan<'a> {
    // The plan in handed tables if they pass the check, and else the plan in which nothing can happen.
    #[tactic(auto, using(crate::proofs::Checking::as_checked_faultless))]
    pub fn of_tables(handed: Handed<'a>) -> Plan<'a>
        ensures rows { held_by result.rows ≡ checked handed.entry }
        ensures blank { plan_in blank_rows ≡ blank_plan }
        ensures can_be_run { Sound (plan_in (held_by result.rows)) }
    {
        Plan {
            rows: checked_rows(handed),
        }
    }

    // The tables of the plan.
    pub fn tables(&self) -> Tables<'a>
        ensures { held_by result ≡ held_by self.now.rows }
    {
        self.rows
    }
}
