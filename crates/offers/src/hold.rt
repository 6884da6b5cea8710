// How long a stage may last, and whether the goal is met by then.
ghost use Rattle.std.specs.Prelude.{◌≡◌, ◌+◌, ◌*◌, ◌<◌, ◌≤◌, map, length, slice_index};
ghost use Rattle.offers.specs.Known.{ceilings_in, plan_of};
ghost use Rattle.offers.specs.Waits.{span_of};
ghost use Rattle.region.specs.Viewed.{viewed};
ghost use Rattle.runs.specs.Runs.{goal_by, hold_span, room, top};
ghost use Rattle.runs.specs.Telling.{TheHoldIntervalIsPermittedTime};

use crate::sound_plan::Plan;
use crate::waits::{Span, count, cuts, steps};
use region::Region;
use rows::tables::TimerRow;
use runs::State;

// The longest wait by which no timer passes its ceiling.
fn ceiling_wait(region: &Region, timers: &[TimerRow]) -> u32
    requires { 0 < length timers.now }
    ensures least { result ≡ room (viewed region.now) (2 * (viewed region.now).classes * slice_index (ceilings_in timers.now) 0) 0 (ceilings_in timers.now) }
    ensures few { result ≤ 32 * 65535 }
{
    let mut best = steps(region, timers[0].ceiling);
    for (i, timer) in timers.iter().enumerate() {
        best = best.min(steps(region, timer.ceiling).saturating_sub(count(region, i)));
    }
    best
}

impl Plan<'_> {
    // The waits by the ceilings that the hold of a stage allows.
    #[tactic(auto, unfolding(runs::specs::Runs::ceiling_wait, runs::specs::Runs::hold_span))]
    fn hold_span(&self, at: &State) -> Span
        ensures span { span_of result ≡ hold_span (plan_of self.now) at.now.stage (viewed at.now.region) }
        ensures few { result.until ≤ 32 * 65535 + 1 }
    {
        let by_ceilings = Span::upto(ceiling_wait(&at.region, self.rows.timers));
        cuts(&at.region, self.hold(at.stage), by_ceilings)
    }

    // The last wait of a stage's hold interval, whose first is 0: the last that hold and ceilings allow, or 0 if the hold does not allow 0.
    #[tactic(auto, unfolding(runs::specs::Runs::top))]
    pub fn top(&self, at: &State) -> u32
        ensures the_hold_interval_is_permitted_time { TheHoldIntervalIsPermittedTime }
        ensures last { result ≡ top (plan_of self.now) at.now.stage (viewed at.now.region) }
        ensures few { result ≤ 32 * 65535 }
    {
        let span = self.hold_span(at);
        if span.has(0) {
            (span.until - 1) as u32
        } else {
            0
        }
    }

    // Whether the goal is on at some wait from 0 through `wait`.
    #[tactic(auto, unfolding(runs::specs::Runs::goal_by))]
    pub fn goal_by(&self, at: &State, wait: u32) -> bool
        ensures { result ≡ goal_by (plan_of self.now) at.now.stage (viewed at.now.region) wait }
    {
        self.is_goal(at.stage) && cuts(&at.region, self.goal(), Span::upto(wait)).is_some()
    }
}
