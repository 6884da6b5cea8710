// Warnings of a plan in words.
use crate::timers::TimerName;
use rows::tables::TimerRow;
use std::fmt;
use warnings::Warning;

// A warning of a plan with these timers: its stage, the timer and its ceiling, and what may come of
// it.
#[derive(Clone, Copy)]
pub struct ShownWarning<'a> {
    pub warning: Warning,
    pub timers: &'a [TimerRow],
}

impl<'a> fmt::Display for ShownWarning<'a> {
    fn fmt<W: fmt::Write>(&self, f: &mut fmt::Formatter<W>) -> fmt::Result {
        match self.warning {
            Warning::CeilingMayEndHold { stage, timer } => {
                let name = TimerName(timer);
                let ceiling = match self.timers.get(timer) {
                    Some(row) => row.ceiling,
                    None => 0,
                };
                write!(
                    f,
                    "warning: stage {stage}: the ceiling of {name}, {ceiling} s, may end the hold \
                    interval before the hold does, and runs may be stuck there"
                )
            }
            Warning::NoWayOut { stage } => {
                write!(
                    f,
                    "warning: stage {stage} is no goal, and no change can ever be possible there: \
                    every run that comes there is stuck"
                )
            }
        }
    }
}
