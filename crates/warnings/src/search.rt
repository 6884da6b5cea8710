// The search for a table of arrivals. Nothing is promised of it: what it finds is tested.
use crate::bounds::Bounds;
use crate::leaving::leaving;
use crate::stage::{changes, is_final, stages, timers};
use offers::sound_plan::Plan;
use rows::tables::{ChangeRow, OutcomeRow, names};
use std::alloc::{AllocError, Global};

// How much work a search does at most. An outcome that is followed counts 1.
const MOST_WORK: u32 = 20_000_000;

// How much a stage counts beside its outcomes.
const WORK_OF_STAGE: u32 = 32;

// Raises the bounds of an arrival to what an outcome leaves. Tells whether any grew.
fn raise(timers: usize, leaving: &Bounds, outcome: OutcomeRow, arrival: &mut Bounds) -> bool {
    let mut grew = false;
    for timer in 0..timers {
        if !names(outcome.resets, timer) && leaving.of_timer(timer) > arrival.of_timer(timer) {
            if let Some(most) = arrival.most.get_mut(timer) {
                *most = leaving.of_timer(timer);
                grew = true;
            }
        }
    }
    grew
}

// Follows an outcome to the stage that it leads to. Tells whether the table grew.
fn follow(
    plan: &Plan<'_>,
    table: &mut [Option<Bounds>],
    leaving: &Bounds,
    outcome: OutcomeRow,
) -> bool {
    if is_final(plan, outcome.stage) {
        return false;
    }
    let Some(entry) = table.get_mut(usize::from(outcome.stage)) else {
        return false;
    };
    let is_new = entry.is_none();
    let mut arrival = entry.unwrap_or_default();
    let grew = raise(timers(plan), leaving, outcome, &mut arrival);
    *entry = Some(arrival);
    is_new || grew
}

// Follows each outcome of a change. Tells whether the table grew.
fn follow_change(
    plan: &Plan<'_>,
    table: &mut [Option<Bounds>],
    leaving: &Bounds,
    change: ChangeRow,
) -> bool {
    let mut grew = false;
    for outcome in plan.tables().outcomes_of(change) {
        grew |= follow(plan, table, leaving, *outcome);
    }
    grew
}

// Follows each change of a stage. Tells whether the table grew.
fn follow_stage(plan: &Plan<'_>, table: &mut [Option<Bounds>], stage: u16) -> bool {
    let Some(Some(arrival)) = table.get(usize::from(stage)).copied() else {
        return false;
    };
    let leaving = leaving(plan, stage, &arrival);
    let mut grew = false;
    for change in changes(plan, stage) {
        grew |= follow_change(plan, table, &leaving, *change);
    }
    grew
}

// Follows each stage. Tells whether the table grew.
fn pass(plan: &Plan<'_>, table: &mut [Option<Bounds>]) -> bool {
    let mut grew = false;
    for stage in 0..stages(plan) {
        grew |= follow_stage(plan, table, stage);
    }
    grew
}

// How much work a pass over all stages does at most.
fn work(plan: &Plan<'_>) -> u32 {
    let mut work = 1u32;
    for stage in 0..stages(plan) {
        work = work.saturating_add(WORK_OF_STAGE);
        for change in changes(plan, stage) {
            work = work.saturating_add(u32::from(change.outcomes));
        }
    }
    work
}

// How many passes a search makes at most.
fn passes(plan: &Plan<'_>) -> u32 {
    MOST_WORK / work(plan).max(1)
}

// A table in which stage 0 is arrived in with all timers at zero, and no other stage.
fn first_arrival(heap: Global, plan: &Plan<'_>) -> Result<Vec<Option<Bounds>>, AllocError> {
    let mut table = Vec::new(heap);
    for stage in 0..stages(plan) {
        let arrival = if stage == 0 && !is_final(plan, 0) {
            Some(Bounds::default())
        } else {
            None
        };
        table.push(arrival)?;
    }
    Ok(table)
}

// A table that keeps the rules of arrivals, unless the search stops before its end.
pub(crate) fn candidate(heap: Global, plan: &Plan<'_>) -> Result<Vec<Option<Bounds>>, AllocError> {
    let mut table = first_arrival(heap, plan)?;
    for _ in 0..passes(plan) {
        if !pass(plan, &mut table) {
            break;
        }
    }
    Ok(table)
}
