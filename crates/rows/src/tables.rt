// The rows of a plan's six tables: plain numbers, as the plan file has them. Each kind of row takes `SIZE` bytes there.
// The first row of a list and how many it has are two fields and no struct, since the rows, and the definitions over them, name the numbers of the file.
ghost use Rattle.std.specs.Prelude.{◌≡◌, ◌/◌, ◌%◌, ◌^◌, take, drop, ◌==◌, nat_le};

// The most comparisons in a hold, a guard or a goal, the most changes of a stage, and the most outcomes of a change.
pub const MOST_COMPARISONS: u16 = 32;

pub const MOST_CHANGES: usize = 128;

pub const MOST_OUTCOMES: u16 = 64;

// A timer and the seconds it never passes.
#[derive(Clone, Copy, Debug, PartialEq, Eq, Default)]
pub struct TimerRow {
    pub ceiling: u16,
}

impl TimerRow {
    pub const SIZE: usize = 2;
}

// A timer, or for kinds 4 to 7 the first less the second, against a constant.
#[derive(Clone, Copy, Debug, PartialEq, Eq, Default)]
pub struct ComparisonRow {
    pub kind: u8,
    pub first: u8,
    pub second: u8,
    pub filler: u8,
    pub constant: u16,
}

impl ComparisonRow {
    pub const SIZE: usize = 6;
}

// A stage: its mark, the comparisons it holds by, and its changes.
#[derive(Clone, Copy, Debug, PartialEq, Eq, Default)]
pub struct StageRow {
    pub mark: u16,
    pub first_hold: u16,
    pub holds: u16,
    pub first_change: u16,
    pub changes: u16,
}

impl StageRow {
    pub const SIZE: usize = 10;
}

// A change: the comparisons that guard it, and its outcomes.
#[derive(Clone, Copy, Debug, PartialEq, Eq, Default)]
pub struct ChangeRow {
    pub first_guard: u16,
    pub guards: u16,
    pub first_outcome: u16,
    pub outcomes: u16,
}

impl ChangeRow {
    pub const SIZE: usize = 8;
}

// An outcome: its weight, the stage it leads to, and the timers it resets, bit i for timer i.
#[derive(Clone, Copy, Debug, PartialEq, Eq, Default)]
pub struct OutcomeRow {
    pub weight: u16,
    pub stage: u16,
    pub resets: u16,
}

impl OutcomeRow {
    pub const SIZE: usize = 6;
}

// The comparisons of the goal.
#[derive(Clone, Copy, Debug, PartialEq, Eq, Default)]
pub struct GoalRow {
    pub first: u16,
    pub comparisons: u16,
}

impl GoalRow {
    pub const SIZE: usize = 4;
}

// The first n rows, as far as there are any.
pub fn first_rows<T>(rows: &[T], n: usize) -> &[T]
    ensures { result.now ≡ take n rows.now }
{
    &rows[..n.min(rows.len())]
}

// The n rows from the row `first` on, as far as there are any.
pub fn part<T>(rows: &[T], first: usize, n: usize) -> &[T]
    ensures { result.now ≡ take n (drop first rows.now) }
{
    first_rows(&rows[first.min(rows.len())..], n)
}

// Whether the bit at a place is set.
pub fn names(bits: u16, place: usize) -> bool
    ensures { result ≡ (bits / 2 ^ place % 2 == 1) }
{
    place < 16 && (bits >> place) % 2 == 1
}

// Whether a bit is set at the place n or past it.
pub fn names_past(bits: u16, n: usize) -> bool
    ensures { result ≡ nat_le (2 ^ n) bits }
{
    n < 16 && u32::from(bits) >= 1u32 << n
}
