// A region of a plan's timers: for each timer its whole seconds and the place of its fraction among the different fractions.
#![tactic(auto)]

ghost use Rattle.std.specs.Prelude.{◌≤◌};
ghost use Rattle.region.specs.Views.{record_in};
ghost use Rattle.theory.specs.Records.{Valid};

mod read;
mod reset;
pub mod same;
#[cfg(test)]
mod tests;
pub mod value;
mod wait;

use value::TimerValue;

// A record that some timers can show, with room for sixteen of them. The rows past those of the timers say nothing.
// The table is fixed, since a region is copied inside a run, which must need no memory of its own.
// Sixteen is written as a number in this crate, since a table of seventeen places stands beside those of sixteen, and no length is computed from another.
// That a refused wait or reset leaves the region as it was is said by each: it holds of the region before and after.
#[derive(Clone, Copy, Debug)]
pub struct Region {
    whole: bool,
    classes: u8,
    number: u8,
    rows: [TimerValue; 16],
    ghost some: { 1 ≤ number },
    ghost few: { number ≤ 16 },
    ghost classed: { 1 ≤ classes },
    ghost table: { classes ≤ 16 },
    ghost valid: { ∥ Valid (record_in whole classes number rows) ∥₁ },
}
