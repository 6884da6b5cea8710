// Warnings of small plans of two timers, x up to 1000 seconds and y up to 3600.
use crate::{Warning, warnings};
use offers::sound_plan::Plan;
use plan::handed::{Handed, Tables};
use plan::records::Records;
use rows::tables::{ChangeRow, ComparisonRow, GoalRow, OutcomeRow, StageRow, TimerRow};
use std::alloc::{AllocError, Global};

static TIMERS: [TimerRow; 2] = [TimerRow { ceiling: 1000 }, TimerRow { ceiling: 3600 }];

const X: u8 = 0;

const Y: u8 = 1;

const RESETS_X: u16 = 1;

const RESETS_Y: u16 = 2;

const RESETS_BOTH: u16 = 3;

// Makers of rows. A comparison is of one timer.
fn at_least(timer: u8, seconds: u16) -> ComparisonRow {
    comparison(0, timer, seconds)
}

fn above(timer: u8, seconds: u16) -> ComparisonRow {
    comparison(1, timer, seconds)
}

fn at_most(timer: u8, seconds: u16) -> ComparisonRow {
    comparison(2, timer, seconds)
}

fn below(timer: u8, seconds: u16) -> ComparisonRow {
    comparison(3, timer, seconds)
}

fn comparison(kind: u8, timer: u8, seconds: u16) -> ComparisonRow {
    ComparisonRow {
        kind,
        first: timer,
        second: 0,
        filler: 0,
        constant: seconds,
    }
}

fn stage(mark: u16, first_hold: u16, holds: u16, first_change: u16, changes: u16) -> StageRow {
    StageRow {
        mark,
        first_hold,
        holds,
        first_change,
        changes,
    }
}

fn change(first_guard: u16, guards: u16, first_outcome: u16, outcomes: u16) -> ChangeRow {
    ChangeRow {
        first_guard,
        guards,
        first_outcome,
        outcomes,
    }
}

fn outcome(stage: u16, resets: u16) -> OutcomeRow {
    OutcomeRow {
        weight: 1,
        stage,
        resets,
    }
}

#[derive(Clone, Copy)]
struct Rows<'a> {
    comparisons: &'a [ComparisonRow],
    stages: &'a [StageRow],
    changes: &'a [ChangeRow],
    outcomes: &'a [OutcomeRow],
    goal: GoalRow,
}

// The goal that is always on.
const ALWAYS: GoalRow = GoalRow {
    first: 0,
    comparisons: 0,
};

fn warned_of(heap: Global, rows: Rows<'_>) -> Result<Vec<Warning>, AllocError> {
    let tables = Tables {
        timers: &TIMERS,
        comparisons: rows.comparisons,
        stages: rows.stages,
        changes: rows.changes,
        outcomes: rows.outcomes,
        goals: &[rows.goal],
    };
    let counts = tables.counts();
    warnings(heap, Plan::of_tables(Handed { tables, counts }))
}

fn ceiling(stage: usize, timer: usize) -> Warning {
    Warning::CeilingMayEndHold { stage, timer }
}

// Stage 0 holds by x ≤ 10 and changes from x ≥ 5 on, back to stage 0 with these resets.
fn one_stage(heap: Global, resets: u16) -> Result<Vec<Warning>, AllocError> {
    warned_of(
        heap,
        Rows {
            comparisons: &[at_most(X, 10), at_least(X, 5)],
            stages: &[stage(0, 0, 1, 0, 1)],
            changes: &[change(1, 1, 0, 1)],
            outcomes: &[outcome(0, resets)],
            goal: ALWAYS,
        },
    )
}

#[test]
fn a_timer_that_nobody_resets_may_end_a_hold_on_another(rt: HostRuntime) -> Result<(), AllocError> {
    assert_eq!(rt;
        one_stage(rt.alloc(), RESETS_X)?.as_slice(),
        [ceiling(0, 1)].as_slice()
    );
    assert_eq!(rt;
        one_stage(rt.alloc(), RESETS_BOTH)?.as_slice(),
        [].as_slice()
    );
    Ok(())
}

// Stage 0 holds by x ≤ 10 and y ≤ 3000, and changes at once, with x at zero, back to itself or to
// stage 1, which holds by x as long as is said.
fn two_stages(heap: Global, seconds: u16) -> Result<Vec<Warning>, AllocError> {
    warned_of(
        heap,
        Rows {
            comparisons: &[at_most(X, 10), at_most(Y, 3000), at_most(X, seconds)],
            stages: &[stage(0, 0, 2, 0, 1), stage(0, 2, 1, 1, 1)],
            changes: &[change(0, 0, 0, 2), change(0, 0, 2, 1)],
            outcomes: &[
                outcome(0, RESETS_X),
                outcome(1, RESETS_X),
                outcome(0, RESETS_BOTH),
            ],
            goal: ALWAYS,
        },
    )
}

#[test]
fn a_hold_caps_what_many_laps_add(rt: HostRuntime) -> Result<(), AllocError> {
    assert_eq!(rt; two_stages(rt.alloc(), 600)?.as_slice(), [].as_slice());
    assert_eq!(rt;
        two_stages(rt.alloc(), 601)?.as_slice(),
        [ceiling(1, 1)].as_slice()
    );
    Ok(())
}

// Stage 0 holds by x ≤ 10 and changes by this comparison, back to itself with both timers at zero.
fn guarded(heap: Global, guard: ComparisonRow) -> Result<Vec<Warning>, AllocError> {
    warned_of(
        heap,
        Rows {
            comparisons: &[at_most(X, 10), guard],
            stages: &[stage(0, 0, 1, 0, 1)],
            changes: &[change(1, 1, 0, 1)],
            outcomes: &[outcome(0, RESETS_BOTH)],
            goal: ALWAYS,
        },
    )
}

#[test]
fn a_guard_above_the_hold_is_no_way_out(rt: HostRuntime) -> Result<(), AllocError> {
    let dead_end = [Warning::NoWayOut { stage: 0 }];
    assert_eq!(rt;
        guarded(rt.alloc(), at_least(X, 11))?.as_slice(),
        dead_end.as_slice()
    );
    assert_eq!(rt;
        guarded(rt.alloc(), above(X, 10))?.as_slice(),
        dead_end.as_slice()
    );
    assert_eq!(rt;
        guarded(rt.alloc(), at_least(X, 10))?.as_slice(),
        [].as_slice()
    );
    Ok(())
}

// Stage 0 holds by the first comparison and changes by the two others, back to itself with both
// timers at zero.
fn guarded_twice(
    heap: Global,
    comparisons: &[ComparisonRow; 3],
) -> Result<Vec<Warning>, AllocError> {
    warned_of(
        heap,
        Rows {
            comparisons,
            stages: &[stage(0, 0, 1, 0, 1)],
            changes: &[change(1, 2, 0, 1)],
            outcomes: &[outcome(0, RESETS_BOTH)],
            goal: ALWAYS,
        },
    )
}

#[test]
fn a_guard_that_contradicts_itself_is_no_way_out(rt: HostRuntime) -> Result<(), AllocError> {
    let crossed = [at_most(X, 10), at_least(X, 5), at_most(X, 3)];
    assert_eq!(rt;
        guarded_twice(rt.alloc(), &crossed)?.as_slice(),
        [Warning::NoWayOut { stage: 0 }].as_slice()
    );
    let of_two_timers = [at_most(X, 10), at_least(X, 5), at_most(Y, 3)];
    assert_eq!(rt;
        guarded_twice(rt.alloc(), &of_two_timers)?.as_slice(),
        [].as_slice()
    );
    let one_moment = [at_most(X, 10), at_least(X, 5), at_most(X, 5)];
    assert_eq!(rt;
        guarded_twice(rt.alloc(), &one_moment)?.as_slice(),
        [].as_slice()
    );
    Ok(())
}

// Stage 0 holds by x ≤ 10 and changes at once to stage 1 with these resets. Stage 1 holds by
// x < 4, and changes from x ≥ 4 on, back to stage 0 with both timers at zero.
fn left_past_its_hold(heap: Global, resets: u16) -> Result<Vec<Warning>, AllocError> {
    warned_of(
        heap,
        Rows {
            comparisons: &[at_most(X, 10), below(X, 4), at_least(X, 4)],
            stages: &[stage(0, 0, 1, 0, 1), stage(0, 1, 1, 1, 1)],
            changes: &[change(0, 0, 0, 1), change(2, 1, 1, 1)],
            outcomes: &[outcome(1, resets), outcome(0, RESETS_BOTH)],
            goal: ALWAYS,
        },
    )
}

#[test]
fn a_guard_past_the_hold_is_no_way_out_unless_it_is_met_on_arrival(
    rt: HostRuntime,
) -> Result<(), AllocError> {
    assert_eq!(rt;
        left_past_its_hold(rt.alloc(), RESETS_BOTH)?.as_slice(),
        [Warning::NoWayOut { stage: 1 }].as_slice()
    );
    assert_eq!(rt;
        left_past_its_hold(rt.alloc(), RESETS_Y)?.as_slice(),
        [].as_slice()
    );
    Ok(())
}

// Stage 0 holds by x ≤ 10 and changes at once to stage 1, which has this mark, no hold and no
// change. The goal is on from y ≥ 100 on, or always.
fn ending(heap: Global, mark: u16, goal: GoalRow) -> Result<Vec<Warning>, AllocError> {
    warned_of(
        heap,
        Rows {
            comparisons: &[at_most(X, 10), at_least(Y, 100)],
            stages: &[stage(0, 0, 1, 0, 1), stage(mark, 0, 0, 0, 0)],
            changes: &[change(0, 0, 0, 1)],
            outcomes: &[outcome(1, 0)],
            goal,
        },
    )
}

#[test]
fn only_a_stage_without_a_mark_is_a_dead_end(rt: HostRuntime) -> Result<(), AllocError> {
    let later = GoalRow {
        first: 1,
        comparisons: 1,
    };
    let dead_end = Warning::NoWayOut { stage: 1 };
    let unmarked = ending(rt.alloc(), 0, ALWAYS)?;
    assert_eq!(rt;
        unmarked.as_slice(),
        [ceiling(1, 0), ceiling(1, 1), dead_end].as_slice()
    );
    let goal = ending(rt.alloc(), 1, later)?;
    assert_eq!(rt; goal.as_slice(), [ceiling(1, 0), ceiling(1, 1)].as_slice());
    assert_eq!(rt; ending(rt.alloc(), 1, ALWAYS)?.as_slice(), [].as_slice());
    assert_eq!(rt; ending(rt.alloc(), 2, later)?.as_slice(), [].as_slice());
    Ok(())
}
