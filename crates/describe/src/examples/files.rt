// The example plan's file, and reading an altered copy of it.
use crate::examples::makers::{change, compare, outcome, stage};
use plan::handed::Handed;
use plan::tables::{check_tables, fault_in_tables};
use reader::owned::OwnedTables;
use rows::fault::{Fault, Where};
use rows::refusal::Refusal;
use rows::section::{Counts, SectionName};
use rows::tables::{GoalRow, TimerRow};
use std::alloc::{AllocError, Global};
use std::test::Fail;

// Timers x0, x1 up to 10 s. Stage 0: holds x0 <= 3, change 0 when x0 >= 2: 3 to stage 0, 1 to
// stage 1. Stage 1: goal, holds x0 <= 5, change 1 when x0 > 1: to stage 0. Goal: x1 <= 4.
// The file is the first 104 bytes.
pub const EXAMPLE: [u8; 105] = [
    0, 2, 0, 10, 0, 10, // timers
    0, 5, 2, 0, 0, 0, 0, 3, 0, 0, 0, 0, 0, 2, 2, 0, 0, 0, 0, 5, 1, 0, 0, 0, 0, 1, 2, 1, 0, 0, 0, 4, // comparisons
    0, 2, 0, 0, 0, 0, 0, 1, 0, 0, 0, 1, 0, 1, 0, 2, 0, 1, 0, 1, 0, 1, // stages
    0, 2, 0, 1, 0, 1, 0, 0, 0, 2, 0, 3, 0, 1, 0, 2, 0, 1, // changes
    0, 3, 0, 3, 0, 0, 0, 1, 0, 1, 0, 1, 0, 1, 0, 1, 0, 0, 0, 1, // outcomes
    0, 1, 0, 4, 0, 1, // goal
    0, // a byte behind the file
];

// How many rows the example has of each kind.
pub const EXAMPLE_COUNTS: Counts = Counts {
    timers: 2,
    comparisons: 5,
    stages: 2,
    changes: 2,
    outcomes: 3,
    goals: 1,
};

fn altered(edits: &[(usize, u8)]) -> [u8; 105] {
    let mut bytes = EXAMPLE;
    for (at, value) in edits.iter().copied() {
        if at < EXAMPLE.len() {
            bytes[at] = value;
        }
    }
    bytes
}

// What comes of bytes and tables: the fault that is told of them, and the answer of a read.
#[derive(Clone, Copy, Debug, PartialEq, Eq)]
pub struct Answered {
    pub fault: Option<Fault>,
    pub answer: Result<Counts, Refusal>,
}

impl Answered {
    pub fn of(mut tables: OwnedTables, bytes: &[u8]) -> Answered {
        Answered {
            fault: tables.fault_in(bytes),
            answer: tables.read(bytes),
        }
    }

    // The read is refused, and the fault stands there.
    pub fn refused(refusal: Refusal, at: Where) -> Answered {
        Answered {
            fault: Some(Fault { refusal, at }),
            answer: Err(refusal),
        }
    }

    // So many rows are read, and there is no fault.
    pub fn granted(counts: Counts) -> Answered {
        Answered {
            fault: None,
            answer: Ok(counts),
        }
    }
}

// Looks at the first `len` bytes of the example with these bytes altered.
pub fn read_altered(
    heap: Global,
    len: usize,
    edits: &[(usize, u8)],
) -> Result<Answered, AllocError> {
    let bytes = altered(edits);
    let tables = OwnedTables::of(heap, EXAMPLE_COUNTS)?;
    Ok(Answered::of(tables, &bytes[0..len.min(EXAMPLE.len())]))
}

#[test]
fn the_example_is_read_back(rt: HostRuntime) -> Result<(), Fail> {
    let n = EXAMPLE_COUNTS;
    let more = Counts {
        timers: 3,
        comparisons: 6,
        changes: 3,
        outcomes: 4,
        ..n
    };
    let mut tables = OwnedTables::of(rt.alloc(), more)?;
    tables.timers = vec![in rt.alloc(); TimerRow { ceiling: 7 }; 3]?;
    assert_eq!(rt; tables.read(&EXAMPLE[0..104]), Ok(n));
    assert_eq!(rt;
        tables.timers.as_slice(),
        [
            TimerRow { ceiling: 10 },
            TimerRow { ceiling: 10 },
            TimerRow { ceiling: 7 },
        ]
        .as_slice()
    );
    assert_eq!(rt; tables.comparisons.get(3), Some(&compare(1, 0, 1)));
    assert_eq!(rt; tables.comparisons.get(4), Some(&compare(2, 1, 4)));
    assert_eq!(rt; tables.stages.get(0), Some(&stage(0, 0, 0)));
    assert_eq!(rt; tables.stages.get(1), Some(&stage(1, 2, 1)));
    assert_eq!(rt; tables.changes.get(0), Some(&change(1, 0, 2)));
    assert_eq!(rt; tables.outcomes.get(0), Some(&outcome(3, 0)));
    assert_eq!(rt; tables.outcomes.get(1), Some(&outcome(1, 1)));
    let goal = GoalRow {
        first: 4,
        comparisons: 1,
    };
    assert_eq!(rt; tables.goals.get(0), Some(&goal));
    let handed = Handed {
        tables: tables.view(),
        counts: n,
    };
    assert!(rt; check_tables(handed).is_ok());
    assert_eq!(rt; fault_in_tables(handed), None);
    // a count that its table has no room for is told with its section
    let small = Handed {
        tables: tables.view(),
        counts: Counts { timers: 4, ..n },
    };
    assert_eq!(rt; check_tables(small), Err(Refusal::TableTooSmall));
    let fault = Fault {
        refusal: Refusal::TableTooSmall,
        at: Where::Section(SectionName::Timers),
    };
    assert_eq!(rt; fault_in_tables(small), Some(fault));
    Ok(())
}
