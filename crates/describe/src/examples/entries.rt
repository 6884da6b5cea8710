// Entries and histories in words.
use crate::entries::ShownEntry;
use crate::examples::makers::{change, compare, outcome, stage};
use crate::history::History;
use offers::list::OfferList;
use offers::sound_plan::Plan;
use plan::handed::{Handed, Tables};
use plan::records::Records;
use region::Region;
use rows::refusal::Refusal;
use rows::tables::{GoalRow, StageRow, TimerRow};
use run::call::{Entry, Reply};
use runs::{Answer, Offer, Standing, State};
use std::alloc::Global;
use std::test::Fail;

// An entry of a run in stage 1, in the region after a wait of 3 steps and a reset of the first timer.
fn entry(reply: Reply, standing: Standing) -> Result<Entry, Fail> {
    let mut region = Region::opening(2);
    region.wait(3, &[TimerRow { ceiling: 10 }; 2])?;
    region.reset(1)?;
    Ok(Entry {
        reply,
        at: State { stage: 1, region },
        standing,
    })
}

// Whether an open entry with this reply is shown so.
fn shown(heap: Global, reply: Reply, words: &str) -> Result<bool, Fail> {
    let entry = entry(reply, Standing::Open)?;
    let text = format!(in heap; "{}", ShownEntry(&entry))?;
    let expected = format!(in heap; "{words} | stage 1 | whole 2 0.0 1.1 | open")?;
    Ok(text.as_str() == expected.as_str())
}

// What a stage that holds while x ≤ 6 offers at zero, with half a second to a step: change 0, for
// x ≤ 0, and change 2, for x ≥ 4. Change 1, for x ≥ 7, comes too late.
fn two_of_three() -> OfferList {
    let tables = Tables {
        timers: &[TimerRow { ceiling: 10 }],
        comparisons: &[
            compare(2, 0, 6),
            compare(2, 0, 0),
            compare(0, 0, 7),
            compare(0, 0, 4),
        ],
        stages: &[StageRow {
            changes: 3,
            ..stage(0, 0, 0)
        }],
        changes: &[change(1, 0, 1), change(2, 0, 1), change(3, 0, 1)],
        outcomes: &[outcome(1, 0)],
        goals: &[GoalRow::default()],
    };
    let counts = tables.counts();
    Plan::of_tables(Handed { tables, counts }).possible_changes(&State::opening(1))
}

const TAKEN: Answer = Answer::Taken {
    change: 0,
    wait: 4,
    outcome: 1,
};

#[test]
fn an_entry_of_each_kind(rt: HostRuntime) -> Result<(), Fail> {
    let heap = rt.alloc();
    assert!(rt; shown(heap, Reply::Answered(Ok(TAKEN)), "taken 0 4 1")?);
    assert!(rt; shown(heap, Reply::Answered(Ok(Answer::Met { wait: 5 })), "met 5")?);
    assert!(rt; shown(heap, Reply::Answered(Ok(Answer::RanOut)), "ran out")?);
    assert!(rt;
        shown(
            heap,
            Reply::Answered(Err(Refusal::NoDrawToCome)),
            "refused 12"
        )?
    );
    assert!(rt; shown(heap, Reply::Offered(OfferList::none()), "offers none")?);
    let late = Offer {
        change: 3,
        lowest: 8,
        highest: 12,
    };
    let list = OfferList::of(&[Offer::default(), late]).unwrap();
    assert!(rt; shown(heap, Reply::Offered(list), "offers 0:0-0 3:8-12")?);
    assert!(rt; shown(heap, Reply::Offered(two_of_three()), "offers 0:0-0 2:8-12")?);
    assert!(rt; shown(heap, Reply::Stands(Standing::Failed), "standing failed")?);
    Ok(())
}

#[test]
fn a_history_ends_with_what_decides_it(rt: HostRuntime) -> Result<(), Fail> {
    let entries = [
        entry(Reply::Stands(Standing::Open), Standing::Open)?,
        entry(Reply::Answered(Ok(TAKEN)), Standing::Open)?,
        entry(
            Reply::Answered(Ok(Answer::Met { wait: 7 })),
            Standing::Reached,
        )?,
        entry(Reply::Answered(Err(Refusal::RunNotOpen)), Standing::Reached)?,
    ];
    let text = format!(in rt.alloc(); "{}", History(&entries))?;
    let expected = "opens in stage 1 with x0 = 0, x1 in 1..2
1: waits 1 s, change 0 with outcome 1 leads to stage 1; x0 = 0, x1 in 1..2
2: waits 1 3/4 s and meets the goal on the way; x0 = 0, x1 in 1..2
the goal is reached after 2 steps
";
    assert!(rt; text.as_str() == expected);
    Ok(())
}
