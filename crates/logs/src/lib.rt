// A log: entries of any kind, in order, kept in a slice that is lent to it.
#![tactic(auto)]

ghost use Rattle.std.specs.Prelude.{◌≤◌, length};

pub mod entries;

// The entries are the first rows of the slice, whose number stands beside it, since a run has no heap and its slice is lent. The rows past them stay as they were.
// That a call keeps the rows it was lent (`same_rows`) is said by each call: it holds of the log before and after.
#[derive(Debug, Drop)]
pub struct Log<'a, T> {
    rows: &'a mut [T],
    len: usize,
    ghost fits: { len ≤ length rows.now },
}
