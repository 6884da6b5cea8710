// Timers in words.
use std::fmt;

// A timer by its name, as `x2`.
#[derive(Clone, Copy)]
pub(crate) struct TimerName(pub(crate) usize);

impl fmt::Display for TimerName {
    fn fmt<W: fmt::Write>(&self, f: &mut fmt::Formatter<W>) -> fmt::Result {
        write!(f, "x{}", self.0)
    }
}
