// What may happen in a plan of two timers, x and y, with ceilings of 10 seconds.
use crate::list::OfferList;
use crate::sound_plan::Plan;
use crate::waits::{Span, cut, cuts};
use plan::handed::{Handed, Tables};
use plan::records::Records;
use region::Region;
use rows::reading::{Comparison, Relation, Subject};
use rows::section::Counts;
use rows::tables::{ChangeRow, ComparisonRow, GoalRow, OutcomeRow, StageRow, TimerRow};
use runs::{Offer, State};
use std::test::Fail;

const TEN: TimerRow = TimerRow { ceiling: 10 };

static TIMERS: [TimerRow; 2] = [TEN, TEN];

// These makers of rows are this crate's own: what a crate has for its tests no other crate sees.

// Timer x against a constant.
fn x(kind: u8, constant: u16) -> ComparisonRow {
    ComparisonRow {
        kind,
        constant,
        ..ComparisonRow::default()
    }
}

// A stage with one comparison to hold by and one change.
fn stage(mark: u16, first_hold: u16, first_change: u16) -> StageRow {
    StageRow {
        mark,
        first_hold,
        holds: 1,
        first_change,
        changes: 1,
    }
}

// A change with one comparison to guard it.
fn change(first_guard: u16, first_outcome: u16, outcomes: u16) -> ChangeRow {
    ChangeRow {
        first_guard,
        guards: 1,
        first_outcome,
        outcomes,
    }
}

fn outcome(weight: u16, stage: u16) -> OutcomeRow {
    OutcomeRow {
        weight,
        stage,
        resets: 1,
    }
}

static GOALS: [GoalRow; 1] = [GoalRow {
    first: 4,
    comparisons: 1,
}];

#[derive(Clone, Copy)]
struct Rows {
    comparisons: [ComparisonRow; 5],
    stages: [StageRow; 2],
    changes: [ChangeRow; 2],
    outcomes: [OutcomeRow; 3],
}

// Stage 0 holds by x ≤ `hold` and changes from x ≥ 2 on; stage 1 is the goal while y ≤ 4.
fn example(hold: u16) -> Rows {
    let y = ComparisonRow {
        kind: 2,
        first: 1,
        constant: 4,
        ..ComparisonRow::default()
    };
    Rows {
        comparisons: [x(2, hold), x(0, 2), x(2, 5), x(1, 1), y],
        stages: [stage(0, 0, 0), stage(1, 2, 1)],
        changes: [change(1, 0, 2), change(3, 2, 1)],
        outcomes: [outcome(3, 0), outcome(1, 1), outcome(1, 0)],
    }
}

// The plan in these rows, if there is one goal row.
fn plan_of<'a>(rows: &'a Rows, goals: usize) -> Plan<'a> {
    let tables = Tables {
        timers: &TIMERS,
        comparisons: &rows.comparisons,
        stages: &rows.stages,
        changes: &rows.changes,
        outcomes: &rows.outcomes,
        goals: &GOALS,
    };
    let counts = Counts {
        goals,
        ..tables.counts()
    };
    Plan::of_tables(Handed { tables, counts })
}

// The region so many steps after all timers were at zero.
fn after(steps: u32) -> Result<Region, Fail> {
    let mut region = Region::opening(2);
    region.wait(steps, &TIMERS)?;
    Ok(region)
}

// A stage with both timers at zero.
fn at_zero(stage: u16) -> State {
    State {
        stage,
        ..State::opening(2)
    }
}

#[test]
fn the_change_is_offered_from_two_to_three_seconds(rt: HostRuntime) {
    let rows = example(3);
    let plan = plan_of(&rows, 1);
    let at = at_zero(0);
    assert_eq!(rt; plan.top(&at), 6);
    let list = plan.possible_changes(&at);
    assert_eq!(rt; list.len(), 1);
    assert_eq!(rt;
        list.as_slice().first().copied(),
        Some(Offer {
            change: 0,
            lowest: 4,
            highest: 6,
        })
    );
    let past = list.items[1];
    assert_eq!(rt; past.highest, 0);
}

#[test]
fn a_stage_past_its_hold_lasts_no_longer(rt: HostRuntime) -> Result<(), Fail> {
    let rows = example(3);
    let plan = plan_of(&rows, 1);
    let at = State {
        stage: 0,
        region: after(8)?,
    };
    assert_eq!(rt; plan.top(&at), 0);
    let list = plan.possible_changes(&at);
    assert_eq!(rt; list.len(), 1);
    let first = list.items[0];
    assert_eq!(rt; first.lowest, 0);
    assert_eq!(rt; first.highest, 0);
    Ok(())
}

#[test]
fn a_guard_after_the_hold_is_not_offered(rt: HostRuntime) {
    let rows = example(1);
    let plan = plan_of(&rows, 1);
    let list = plan.possible_changes(&at_zero(0));
    assert_eq!(rt; list.len(), 0);
    let past = list.items[0];
    assert_eq!(rt; past.highest, 0);
}

#[test]
fn tables_that_do_not_pass_make_a_plan_in_which_nothing_happens(rt: HostRuntime) {
    let rows = example(3);
    let plan = plan_of(&rows, 2);
    let at = State::opening(1);
    assert_eq!(rt; plan.top(&at), 2);
    assert!(rt; plan.possible_changes(&at).is_empty());
}

#[test]
fn the_goal_counts_in_its_stage_while_it_is_on(rt: HostRuntime) -> Result<(), Fail> {
    let rows = example(3);
    let plan = plan_of(&rows, 1);
    let late = State {
        stage: 1,
        region: after(9)?,
    };
    assert!(rt; plan.goal_by(&at_zero(1), 0));
    assert!(rt; !plan.goal_by(&at_zero(0), 0));
    assert!(rt; !plan.goal_by(&late, 4294967295));
    Ok(())
}

#[test]
fn a_timer_past_its_constant_forbids_every_wait(rt: HostRuntime) -> Result<(), Fail> {
    let region = after(8)?;
    assert!(rt; !cuts(&region, &[x(2, 3)], Span::upto(20)).is_some());
    assert_eq!(rt; cuts(&region, &[x(0, 3)], Span::upto(20)), Span::upto(20));
    Ok(())
}

#[test]
fn a_lead_allows_every_wait_or_none(rt: HostRuntime) -> Result<(), Fail> {
    let mut region = after(3)?;
    assert!(rt; region.reset(2).is_ok());
    let lead = Comparison {
        subject: Subject::Lead(0, 1),
        relation: Relation::Above,
        constant: 1,
    };
    assert_eq!(rt; cut(&region, lead, Span::upto(9)), Span::upto(9));
    let more = Comparison {
        subject: Subject::Lead(0, 1),
        relation: Relation::AtLeast,
        constant: 2,
    };
    assert!(rt; !cut(&region, more, Span::upto(9)).is_some());
    Ok(())
}

#[test]
fn a_stage_offers_as_many_changes_as_it_may_have(rt: HostRuntime) {
    let stage = StageRow {
        changes: 128,
        ..StageRow::default()
    };
    let change = ChangeRow {
        outcomes: 1,
        ..ChangeRow::default()
    };
    let changes = [change; 128];
    let tables = Tables {
        timers: &TIMERS,
        comparisons: &[],
        stages: &[stage],
        changes: &changes,
        outcomes: &[outcome(1, 0)],
        goals: &[GoalRow::default()],
    };
    let counts = tables.counts();
    let list = Plan::of_tables(Handed { tables, counts }).possible_changes(&at_zero(0));
    assert_eq!(rt; list.len(), 128);
    assert_eq!(rt;
        list.as_slice().last().copied(),
        Some(Offer {
            change: 127,
            lowest: 0,
            highest: 20,
        })
    );
}

#[test]
fn a_list_tells_the_offers_that_were_pushed(rt: HostRuntime) {
    let mut list = OfferList::none();
    assert!(rt; list.is_empty());
    let late = Offer {
        change: 3,
        lowest: 8,
        highest: 12,
    };
    list.push(Offer::default());
    list.push(late);
    assert_eq!(rt; list.len(), 2);
    assert_eq!(rt; list.as_slice().last().copied(), Some(late));
    assert_eq!(rt; OfferList::of(&[Offer::default(), late]), Some(list));
    assert_eq!(rt; OfferList::of(&[late; 129]), None);
}
