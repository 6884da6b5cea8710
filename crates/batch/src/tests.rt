// Batches on a plan of two timers, x up to 3 seconds and y up to 2.
use crate::beside::runs_by;
use crate::ranking::{fewest_reached, most_reached};
use crate::tally::Tally;
use crate::watch::Unwatched;
use crate::{BatchRow, Limits, batch};
use draws::congruential::Congruential;
use draws::source::DrawSource;
use draws::tape::Tape;
use logs::Log;
use plan::handed::{Handed, Tables};
use plan::records::Records;
use rows::refusal::Refusal;
use rows::tables::{ChangeRow, ComparisonRow, GoalRow, OutcomeRow, StageRow, TimerRow};
use schedulers::first_last::{Earliest, Latest};
use schedulers::sampled::Sampled;
use schedulers::scheduler::Scheduler;

static TIMERS: [TimerRow; 2] = [TimerRow { ceiling: 3 }, TimerRow { ceiling: 2 }];

static GOALS: [GoalRow; 1] = [GoalRow {
    first: 0,
    comparisons: 0,
}];

// Makers of rows. They are not shared: what is made for tests is not seen by another crate, and other tests fill other columns.
fn comparison(kind: u8, first: u8, second: u8, constant: u16) -> ComparisonRow {
    ComparisonRow {
        kind,
        first,
        second,
        filler: 0,
        constant,
    }
}

fn stage(mark: u16, first_hold: u16, holds: u16, first_change: u16, changes: u16) -> StageRow {
    StageRow {
        mark,
        first_hold,
        holds,
        first_change,
        changes,
    }
}

fn change(first_guard: u16, guards: u16, first_outcome: u16, outcomes: u16) -> ChangeRow {
    ChangeRow {
        first_guard,
        guards,
        first_outcome,
        outcomes,
    }
}

fn outcome(weight: u16, stage: u16, resets: u16) -> OutcomeRow {
    OutcomeRow {
        weight,
        stage,
        resets,
    }
}

#[derive(Clone, Copy)]
struct Rows {
    comparisons: [ComparisonRow; 4],
    stages: [StageRow; 4],
    changes: [ChangeRow; 3],
    outcomes: [OutcomeRow; 5],
}

// Stage 0 holds by x ≤ 2 and changes from x > 0 on; stage 1 holds by y ≤ 1 and changes if x leads y by more than 1, or at any time; stage 2 is to be avoided, and stage 3 is the goal.
fn example() -> Rows {
    Rows {
        comparisons: [
            comparison(2, 0, 0, 2),
            comparison(1, 0, 0, 0),
            comparison(2, 1, 0, 1),
            comparison(5, 0, 1, 1),
        ],
        stages: [
            stage(0, 0, 1, 0, 1),
            stage(0, 2, 1, 1, 2),
            stage(2, 0, 0, 0, 0),
            stage(1, 0, 0, 0, 0),
        ],
        changes: [change(1, 1, 0, 2), change(3, 1, 2, 1), change(0, 0, 3, 2)],
        outcomes: [
            outcome(9, 0, 3),
            outcome(1, 1, 2),
            outcome(1, 3, 0),
            outcome(4, 2, 0),
            outcome(1, 3, 0),
        ],
    }
}

// The example as handed tables.
fn handed(rows: &Rows) -> Handed<'_> {
    let tables = Tables {
        timers: &TIMERS,
        comparisons: &rows.comparisons,
        stages: &rows.stages,
        changes: &rows.changes,
        outcomes: &rows.outcomes,
        goals: &GOALS,
    };
    let counts = tables.counts();
    Handed { tables, counts }
}

// Runs identifiers on a source.
fn run_batch<D: DrawSource>(
    source: &mut D,
    identifiers: &[u32],
    limits: Limits,
    log: &mut Log<'_, BatchRow>,
) -> Result<(), Refusal> {
    batch(
        handed(&example()),
        source,
        identifiers,
        limits,
        log,
        &mut Unwatched,
    )
}

fn row(identifier: u32, reached: u32, failed: u32, stuck: u32, unfinished: u32) -> BatchRow {
    BatchRow {
        identifier,
        reached,
        failed,
        stuck,
        unfinished,
    }
}

fn limits(runs: u32, steps: u32, allowance: u32) -> Limits {
    Limits {
        runs,
        steps,
        allowance,
    }
}

#[test]
fn identifier_4_always_reaches_the_goal(rt: HostRuntime) {
    let mut rows = [BatchRow::default(); 2];
    let mut log = Log::new(&mut rows);
    let limits = limits(10_000, 1_000, 1_000_000_000);
    let answer = run_batch(&mut Congruential::new(0), &[0, 4], limits, &mut log);
    assert_eq!(rt; answer, Ok(()));
    assert_eq!(rt;
        log.entries(),
        [row(0, 2026, 7974, 0, 0), row(4, 10_000, 0, 0, 0)].as_slice()
    );
}

// Four rows of two draws, by which every run reaches the goal in two steps.
static HIGHEST: [u32; 8] = [u32::MAX; 8];

#[test]
fn a_run_without_allowance_or_draws_is_unfinished(rt: HostRuntime) {
    let cases = [
        // A spent allowance.
        (limits(4, 10, 5), [row(0, 2, 0, 0, 2), row(4, 0, 0, 0, 4)]),
        // A fifth run of each, which has no row of draws.
        (limits(5, 10, 16), [row(0, 4, 0, 0, 1), row(4, 4, 0, 0, 1)]),
    ];
    for (limits, made) in cases {
        let mut rows = [BatchRow::default(); 2];
        let mut log = Log::new(&mut rows);
        let mut tape = Tape::new(&HIGHEST, 2);
        let answer = run_batch(&mut tape, &[0, 4], limits, &mut log);
        assert_eq!(rt; answer, Ok(()));
        assert_eq!(rt; log.entries(), made.as_slice());
    }
}

// What one scheduler comes to on a source.
fn run_by<S: Scheduler, D: DrawSource>(
    source: &mut D,
    scheduler: &S,
    limits: Limits,
) -> Result<Tally, Refusal> {
    runs_by(handed(&example()), source, scheduler, limits)
}

// Three rows of three draws. By the highest, 2^32 - 1, stage 0 changes to stage 1, and by 0 to
// itself with both timers reset.
static MIXED: [u32; 9] = [u32::MAX, 0, 0, 0, u32::MAX, u32::MAX, 0, 0, u32::MAX];

// The earliest leaves stage 0 after half a second, so x leads y by half a second in stage 1, and
// only the second change is possible: by 0 it leads to stage 2, and by the highest draw to the
// goal. The latest leaves after 2 seconds, so x leads y by 2, and it takes the first of two
// changes with the same highest wait, which leads to the goal by any draw. Row 0: the second draw
// is 0, so the earliest fails, and the latest reaches. Row 1: the third is the highest, so both
// reach. Row 2: both come to stage 1 at the last draw, and are open. Row 3: there is no draw, and
// both are open in stage 0.
#[test]
fn the_earliest_and_the_latest_come_to_their_tallies(rt: HostRuntime) {
    let limits = limits(4, 10, 100);
    assert_eq!(rt;
        run_by(&mut Tape::new(&MIXED, 3), &Earliest, limits),
        Ok(Tally {
            reached: 1,
            failed: 1,
            stuck: 0,
            unfinished: 2
        })
    );
    assert_eq!(rt;
        run_by(&mut Tape::new(&MIXED, 3), &Latest, limits),
        Ok(Tally {
            reached: 2,
            failed: 0,
            stuck: 0,
            unfinished: 2
        })
    );
}

#[test]
fn a_sampled_scheduler_comes_to_its_row(rt: HostRuntime) {
    for identifier in [0, 4] {
        let limits = limits(1_000, 1_000, 1_500);
        let mut rows = [BatchRow::default()];
        let mut log = Log::new(&mut rows);
        let mut source = Congruential::new(0);
        let mut beside = source;
        assert_eq!(rt;
            run_batch(&mut source, &[identifier], limits, &mut log),
            Ok(())
        );
        let tally = run_by(&mut beside, &Sampled { identifier }, limits);
        assert_eq!(rt; tally, Ok(rows[0].tally()));
        assert_eq!(rt; beside, source);
    }
}

#[test]
fn a_scheduler_with_a_number_off_its_limits_is_refused(rt: HostRuntime) {
    let mut source = Congruential::new(0);
    let answer = run_by(&mut source, &Earliest, limits(10_001, 1, 1));
    assert_eq!(rt; answer, Err(Refusal::BatchOffLimits));
    assert_eq!(rt; source, Congruential::new(0));
}

// What a batch answers that has no rows to write to: 14 for numbers off their limits, and else 13.
fn answer_without_rows(identifiers: &[u32], limits: Limits) -> Result<(), Refusal> {
    let mut rows: [BatchRow; 0] = [];
    let mut log = Log::new(&mut rows);
    run_batch(&mut Congruential::new(0), identifiers, limits, &mut log)
}

#[test]
fn the_limits_are_kept(rt: HostRuntime) {
    let most = limits(10_000, 10_000, 1_000_000_000);
    assert_eq!(rt;
        answer_without_rows(&[0; 1_000], most),
        Err(Refusal::LogFull)
    );
    assert_eq!(rt;
        answer_without_rows(&[0], limits(1, 1, 1)),
        Err(Refusal::LogFull)
    );
    assert_eq!(rt;
        answer_without_rows(&[0; 1_001], most),
        Err(Refusal::BatchOffLimits)
    );
    assert_eq!(rt;
        answer_without_rows(&[], most),
        Err(Refusal::BatchOffLimits)
    );
    let off = [
        limits(0, 1, 1),
        limits(1, 0, 1),
        limits(1, 1, 0),
        limits(10_001, 1, 1),
        limits(1, 10_001, 1),
        limits(1, 1, 1_000_000_001),
    ];
    for numbers in off {
        assert_eq!(rt;
            answer_without_rows(&[0], numbers),
            Err(Refusal::BatchOffLimits)
        );
    }
}

#[test]
fn rows_that_do_not_all_fit_are_not_entered(rt: HostRuntime) {
    let mut rows = [row(7, 7, 7, 7, 7)];
    let mut log = Log::new(&mut rows);
    let mut source = Congruential::new(0);
    let answer = run_batch(&mut source, &[0, 4], limits(1, 1, 1), &mut log);
    assert_eq!(rt; answer, Err(Refusal::LogFull));
    assert_eq!(rt; source, Congruential::new(0));
    assert_eq!(rt; log.len(), 0);
    assert_eq!(rt; rows, [row(7, 7, 7, 7, 7)]);
}

#[test]
fn ties_go_to_the_first_row(rt: HostRuntime) {
    let rows = [
        row(0, 5, 0, 0, 0),
        row(1, 9, 0, 0, 0),
        row(2, 9, 0, 0, 0),
        row(3, 5, 0, 0, 0),
    ];
    assert_eq!(rt; most_reached(&rows), Some(1));
    assert_eq!(rt; fewest_reached(&rows), Some(0));
    assert_eq!(rt; most_reached(&[]), None);
}
