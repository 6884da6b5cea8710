// Regions in words.
use crate::lists::joined;
use crate::timers::TimerName;
use region::Region;
use region::value::TimerValue;
use std::fmt;

// `whole 2 0.1 0.0`: whether some timer stands at a whole second, the number of classes, and the
// seconds and the rank of each timer.
#[derive(Clone, Copy)]
pub struct ShownRegion<'a>(pub &'a Region);

impl<'a> fmt::Display for ShownRegion<'a> {
    fn fmt<W: fmt::Write>(&self, f: &mut fmt::Formatter<W>) -> fmt::Result {
        let word = if self.0.is_whole() {
            "whole"
        } else {
            "between"
        };
        let classes = self.0.classes();
        write!(f, "{word} {classes}")?;
        for value in self.0.values() {
            let TimerValue { seconds, rank } = *value;
            write!(f, " {seconds}.{rank}")?;
        }
        Ok(())
    }
}

// One timer of a region: `x0 = 2` where it stands at 2 seconds, `x1 in 2..3` where it stands between
// 2 and 3 seconds.
#[derive(Clone, Copy)]
struct Interval {
    is_whole: bool,
    timer: usize,
    value: TimerValue,
}

impl fmt::Display for Interval {
    fn fmt<W: fmt::Write>(&self, f: &mut fmt::Formatter<W>) -> fmt::Result {
        let timer = TimerName(self.timer);
        let TimerValue { seconds, rank } = self.value;
        if self.is_whole && rank == 0 {
            return write!(f, "{timer} = {seconds}");
        }
        let next = u32::from(seconds) + 1;
        write!(f, "{timer} in {seconds}..{next}")
    }
}

// The timers of one class, as `x2 = x3`.
#[derive(Clone, Copy)]
struct Class<'a>(&'a Region, u8);

impl<'a> fmt::Display for Class<'a> {
    fn fmt<W: fmt::Write>(&self, f: &mut fmt::Formatter<W>) -> fmt::Result {
        let Class(region, class) = *self;
        let timers = region
            .values()
            .iter()
            .enumerate()
            .filter(|(_, value)| value.rank == class)
            .map(|(timer, _)| TimerName(timer));
        joined(f, timers, " = ")
    }
}

// A region as a planner reads it: the interval of each timer and, where several fractions are above
// zero, their order from the smallest on, as `fractions x1 < x2 = x3`.
#[derive(Clone, Copy)]
pub struct Intervals<'a>(pub &'a Region);

impl<'a> fmt::Display for Intervals<'a> {
    fn fmt<W: fmt::Write>(&self, f: &mut fmt::Formatter<W>) -> fmt::Result {
        let region = self.0;
        let is_whole = region.is_whole();
        let intervals = region.values().iter().enumerate().map(|(timer, value)| Interval {
            is_whole,
            timer,
            value: *value,
        });
        joined(f, intervals, ", ")?;
        let first = u8::from(is_whole);
        if u32::from(first) + 1 >= u32::from(region.classes()) {
            return Ok(());
        }
        write!(f, "; fractions ")?;
        joined(
            f,
            (first..region.classes()).map(|rank| Class(region, rank)),
            " < ",
        )
    }
}
