// Runs of the example plan, of one whose goal is met on the way, and of tables that do not pass.
use crate::examples::makers::{change, compare, outcome, stage};
use draws::tape::Tape;
use logs::Log;
use plan::handed::{Handed, Tables};
use plan::records::Records;
use rows::refusal::Refusal;
use rows::tables::{ChangeRow, ComparisonRow, GoalRow, OutcomeRow, StageRow, TimerRow};
use run::Run;
use run::call::{Call, Entry};
use run::replay::replay;
use runs::{Answer, Offer, Standing};
use schedulers::first_last::Earliest;

static TIMERS: [TimerRow; 2] = [TimerRow { ceiling: 10 }, TimerRow { ceiling: 10 }];

#[derive(Clone, Copy)]
struct Rows {
    comparisons: [ComparisonRow; 7],
    stages: [StageRow; 2],
    changes: [ChangeRow; 2],
    outcomes: [OutcomeRow; 3],
    goals: [GoalRow; 1],
}

// Stage 0 holds while x ≤ 3 and changes once x ≥ 2; stage 1 is a goal, holds while x ≤ 5 and changes once x > 1.
fn two_stages(mark: u16, first: u16, comparisons: u16) -> Rows {
    Rows {
        comparisons: [
            compare(2, 0, 3),
            compare(0, 0, 2),
            compare(2, 0, 5),
            compare(1, 0, 1),
            compare(2, 1, 4),
            compare(1, 0, 1),
            compare(3, 0, 2),
        ],
        stages: [stage(mark, 0, 0), stage(1, 2, 1)],
        changes: [change(1, 0, 2), change(3, 2, 1)],
        outcomes: [outcome(3, 0), outcome(1, 1), outcome(1, 0)],
        goals: [GoalRow { first, comparisons }],
    }
}

fn handed<'a>(rows: &'a Rows) -> Handed<'a> {
    let tables = Tables {
        timers: &TIMERS,
        comparisons: &rows.comparisons,
        stages: &rows.stages,
        changes: &rows.changes,
        outcomes: &rows.outcomes,
        goals: &rows.goals,
    };
    Handed {
        tables,
        counts: tables.counts(),
    }
}

// The answer of a change that was made.
fn taken(change: u16, wait: u32, outcome: u16) -> Result<Answer, Refusal> {
    Ok(Answer::Taken {
        change,
        wait,
        outcome,
    })
}

#[test]
fn refusals_come_in_their_order_and_change_nothing(rt: HostRuntime) {
    let rows = two_stages(0, 4, 1);
    let mut tape = Tape::new(&[3221225472], 1);
    let mut run = Run::open(handed(&rows), &mut tape);
    assert_eq!(rt; run.take(0, 3), Err(Refusal::GuardForbidsWait));
    assert_eq!(rt; run.take(0, 7), Err(Refusal::WaitOutsideHold));
    assert_eq!(rt; run.take(1, 4), Err(Refusal::ChangeNotOfStage));
    assert_eq!(rt; run.take(0, 4), taken(0, 4, 1));
    assert_eq!(rt; run.standing(), Standing::Reached);
    assert_eq!(rt; run.offers().len(), 0);
    assert_eq!(rt; run.take(1, 4), Err(Refusal::RunNotOpen));
}

#[test]
fn three_takes_use_three_draws(rt: HostRuntime) {
    let rows = two_stages(0, 4, 1);
    let mut tape = Tape::new(&[0, 3221225472, 0], 3);
    let mut run = Run::open(handed(&rows), &mut tape);
    assert_eq!(rt; run.take(0, 4), taken(0, 4, 0));
    assert_eq!(rt; run.take(0, 6), taken(0, 6, 1));
    assert_eq!(rt; run.take(1, 3), taken(1, 3, 2));
    let offers = run.offers();
    assert_eq!(rt; offers.len(), 1);
    let offer = Offer {
        change: 0,
        lowest: 8,
        highest: 12,
    };
    assert_eq!(rt; offers.as_slice().first(), Some(&offer));
    assert_eq!(rt; run.step(&Earliest), Err(Refusal::NoDrawToCome));
    assert_eq!(rt; run.standing(), Standing::Open);
}

#[test]
fn a_goal_met_on_the_way_needs_no_draw(rt: HostRuntime) {
    let rows = two_stages(1, 5, 2);
    let mut tape = Tape::new(&[], 1);
    let mut run = Run::open(handed(&rows), &mut tape);
    assert_eq!(rt; run.take(0, 4), Ok(Answer::Met { wait: 4 }));
    assert_eq!(rt; run.standing(), Standing::Reached);
}

#[test]
fn tables_that_do_not_pass_run_out_at_once(rt: HostRuntime) {
    let rows = two_stages(4, 4, 1);
    let mut tape = Tape::new(&[], 1);
    let mut run = Run::open(handed(&rows), &mut tape);
    assert_eq!(rt; run.step(&Earliest), Ok(Answer::RanOut));
    assert_eq!(rt; run.standing(), Standing::Stuck);
    assert_eq!(rt; run.step(&Earliest), Err(Refusal::RunNotOpen));
}

#[test]
fn a_replay_that_does_not_fit_its_log_does_nothing(rt: HostRuntime) {
    let rows = two_stages(0, 4, 1);
    let mut entries = [Entry::blank(); 1];
    let mut log = Log::new(&mut entries);
    let calls = [Call::Step(Earliest), Call::Offers];
    let mut tape = Tape::new(&[0], 1);
    let refused = replay(handed(&rows), &mut tape, &calls, &mut log);
    assert_eq!(rt; refused, Err(Refusal::LogFull));
    assert_eq!(rt; log.len(), 0);
    let made = replay(handed(&rows), &mut tape, &calls[0..1], &mut log);
    assert_eq!(rt; made, Ok(()));
    assert_eq!(rt; log.len(), 1);
}
