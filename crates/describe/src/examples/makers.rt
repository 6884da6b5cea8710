// Makers of rows for the examples. Tests of other crates make their own: what is made for tests is not seen by another crate, and they fill other columns.
use rows::tables::{ChangeRow, ComparisonRow, OutcomeRow, StageRow};

// A timer against a constant.
pub fn compare(kind: u8, first: u8, constant: u16) -> ComparisonRow {
    ComparisonRow {
        kind,
        first,
        constant,
        ..ComparisonRow::default()
    }
}

// A stage with one comparison to hold by and one change.
pub fn stage(mark: u16, first_hold: u16, first_change: u16) -> StageRow {
    StageRow {
        mark,
        first_hold,
        holds: 1,
        first_change,
        changes: 1,
    }
}

// A change with one comparison to guard it.
pub fn change(first_guard: u16, first_outcome: u16, outcomes: u16) -> ChangeRow {
    ChangeRow {
        first_guard,
        guards: 1,
        first_outcome,
        outcomes,
    }
}

// An outcome that sets x to zero.
pub fn outcome(weight: u16, stage: u16) -> OutcomeRow {
    OutcomeRow {
        weight,
        stage,
        resets: 1,
    }
}
