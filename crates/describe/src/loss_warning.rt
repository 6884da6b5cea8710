// What is said where many runs of a scheduler are stuck or unfinished.
ghost use Rattle.std.specs.Prelude.{◌≡◌, IfNone, IfSome};
ghost use Rattle.describe.specs.Losses.{losses_of, warned_of};
ghost use Rattle.describe.specs.LossWarnings.{IsLossWarning};

use crate::losses::{Beside, Loss, greatest_loss, warned_beside, warned_rows};
use crate::shares::Share;
use batch::BatchRow;
use schedulers::chooser::Chooser;
use std::fmt;

// What the two counts that are warned of mean.
const MEANING: &str = "stuck: no change was possible any more; \
    unfinished: the steps, the allowance or the draws were used up; neither counts as reached";

// How many of the schedulers have more than 1 % of their runs stuck or unfinished, and which has
// the most.
#[derive(Clone, Copy)]
pub(crate) struct LossWarning {
    pub warned: usize,
    pub schedulers: usize,
    pub worst: Loss,
    pub runs: u32,
}

impl LossWarning {
    // The warning that is due, if one is.
    pub(crate) fn of(rows: &[BatchRow], beside: &[Beside], runs: u32) -> Option<LossWarning>
        ensures none { IfNone result (warned_of runs (losses_of rows.now beside.now) ≡ 0) }
        ensures so { IfSome result (IsLossWarning runs (losses_of rows.now beside.now)) }
    {
        let warned = warned_rows(rows, runs) + warned_beside(beside, runs);
        let worst = greatest_loss(rows, beside)?;
        if warned == 0 {
            return None;
        }
        Some(LossWarning {
            warned,
            schedulers: rows.len() + beside.len(),
            worst,
            runs,
        })
    }
}

impl fmt::Display for LossWarning {
    fn fmt<W: fmt::Write>(&self, f: &mut fmt::Formatter<W>) -> fmt::Result {
        let LossWarning {
            warned,
            schedulers,
            worst,
            runs,
        } = *self;
        let noun = if schedulers == 1 {
            "scheduler"
        } else {
            "schedulers"
        };
        write!(
            f,
            "warning: with {warned} of {schedulers} {noun} more than 1% of the runs are stuck"
        )?;
        write!(
            f,
            " or unfinished, most with {}; {MEANING}",
            LossShown { loss: worst, runs }
        )
    }
}

// The loss of a scheduler, as `scheduler 4: 66.0%`.
#[derive(Clone, Copy)]
struct LossShown {
    loss: Loss,
    runs: u32,
}

impl fmt::Display for LossShown {
    fn fmt<W: fmt::Write>(&self, f: &mut fmt::Formatter<W>) -> fmt::Result {
        let lost = u32::try_from(self.loss.runs).unwrap_or(u32::MAX);
        let share = Share::of(lost, self.runs);
        match self.loss.by {
            Chooser::Earliest => write!(f, "earliest: {share}"),
            Chooser::Latest => write!(f, "latest: {share}"),
            Chooser::Sampled(identifier) => write!(f, "scheduler {identifier}: {share}"),
        }
    }
}
