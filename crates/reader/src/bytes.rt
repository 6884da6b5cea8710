// Numbers and rows out of the bytes of a file.
ghost use Rattle.std.specs.Prelude.{◌≡◌, ℕ, ◌+◌, ◌*◌, ◌<◌, ◌≤◌, List, length, take, drop, slice_index_or};
ghost use Rattle.rows.specs.Files.{change_at, comparison_at, goal_at, outcome_at, rows_in, stage_at, timer_at, word_at};
ghost use Rattle.reader.specs.Filling.{some_bytes};
ghost use Rattle.rows.specs.Plans.{change_bytes, comparison_bytes, goal_bytes, outcome_bytes, stage_bytes, timer_bytes, word as two_bytes};

use rows::tables::{ChangeRow, ComparisonRow, GoalRow, OutcomeRow, StageRow, TimerRow};

// The number of 16 bits at the byte i, high byte first.
pub(crate) fn word(bytes: &[u8], i: usize) -> u16
    requires { i + 2 ≤ length bytes.now }
    ensures value { result ≡ word_at bytes.now i }
    ensures whole { two_bytes result ≡ take 2 (drop i bytes.now) }
{
    u16::from_be_bytes([bytes[i], bytes[i + 1]])
}

// A row that stands in a file: its bytes, how it is read, and how it is written.
pub(crate) trait Row: Copy {
    ghost parsed: { List ℕ → ℕ → Self };

    ghost written: { Self → List ℕ };

    ghost SIZE: { ℕ };

    // The bytes of one record.
    const SIZE: usize;

    fn at(part: &[u8], i: usize) -> Self
        requires { i + SIZE ≤ length part.now }
        ensures value { result ≡ parsed part.now i }
        ensures whole { written result ≡ take SIZE (drop i part.now) };

    // A record takes some bytes.
    ghost some: { 0 < SIZE };
}

// How many rows stand in the part of the file that a section fills.
#[tactic(auto, using(rows::proofs::Files::length_rows_in))]
pub(crate) fn count<R: Row>(part: &[u8]) -> usize
    ensures { result ≡ length (rows_in R.Row.parsed R.Row.SIZE part.now) }
{
    part.len() / R::SIZE
}

// The row at a place of such a part.
pub(crate) fn nth_row<R: Row>(part: &[u8], i: usize) -> R
    requires { i < length (rows_in R.Row.parsed R.Row.SIZE part.now) }
    ensures value { (d : R)
        → result ≡ slice_index_or (rows_in R.Row.parsed R.Row.SIZE part.now) i d }
    ensures whole { R.Row.written result ≡ take R.Row.SIZE (drop (i * R.Row.SIZE) part.now) }
{
    R::at(part, i * R::SIZE)
}

// Each row has its own fields, read in their order, so an impl each. Beside `const SIZE`, the number of the code, stands `ghost SIZE`,
// the number of the contracts, which has to be the code's.
impl Row for TimerRow {
    ghost parsed = { timer_at };

    ghost written = { timer_bytes };

    ghost SIZE = { 2 };

    const SIZE: usize = TimerRow::SIZE;

    ghost some = { some_bytes 1 };

    fn at(part: &[u8], i: usize) -> TimerRow {
        TimerRow {
            ceiling: word(part, i),
        }
    }
}

impl Row for ComparisonRow {
    ghost parsed = { comparison_at };

    ghost written = { comparison_bytes };

    ghost SIZE = { 6 };

    const SIZE: usize = ComparisonRow::SIZE;

    ghost some = { some_bytes 5 };

    fn at(part: &[u8], i: usize) -> ComparisonRow {
        ComparisonRow {
            kind: part[i],
            first: part[i + 1],
            second: part[i + 2],
            filler: part[i + 3],
            constant: word(part, i + 4),
        }
    }
}

impl Row for StageRow {
    ghost parsed = { stage_at };

    ghost written = { stage_bytes };

    ghost SIZE = { 10 };

    const SIZE: usize = StageRow::SIZE;

    ghost some = { some_bytes 9 };

    fn at(part: &[u8], i: usize) -> StageRow {
        StageRow {
            mark: word(part, i),
            first_hold: word(part, i + 2),
            holds: word(part, i + 4),
            first_change: word(part, i + 6),
            changes: word(part, i + 8),
        }
    }
}

impl Row for ChangeRow {
    ghost parsed = { change_at };

    ghost written = { change_bytes };

    ghost SIZE = { 8 };

    const SIZE: usize = ChangeRow::SIZE;

    ghost some = { some_bytes 7 };

    fn at(part: &[u8], i: usize) -> ChangeRow {
        ChangeRow {
            first_guard: word(part, i),
            guards: word(part, i + 2),
            first_outcome: word(part, i + 4),
            outcomes: word(part, i + 6),
        }
    }
}

impl Row for OutcomeRow {
    ghost parsed = { outcome_at };

    ghost written = { outcome_bytes };

    ghost SIZE = { 6 };

    const SIZE: usize = OutcomeRow::SIZE;

    ghost some = { some_bytes 5 };

    fn at(part: &[u8], i: usize) -> OutcomeRow {
        OutcomeRow {
            weight: word(part, i),
            stage: word(part, i + 2),
            resets: word(part, i + 4),
        }
    }
}

impl Row for GoalRow {
    ghost parsed = { goal_at };

    ghost written = { goal_bytes };

    ghost SIZE = { 4 };

    const SIZE: usize = GoalRow::SIZE;

    ghost some = { some_bytes 3 };

    fn at(part: &[u8], i: usize) -> GoalRow {
        GoalRow {
            first: word(part, i),
            comparisons: word(part, i + 2),
        }
    }
}
