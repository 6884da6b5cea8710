// A run as a planner reads it: a line for its opening and for each step, and what came of it.
ghost use Rattle.std.specs.Prelude.{◌≡◌};
ghost use Rattle.describe.specs.Histories.{ends_with, refused_in, told_to_the_end};

use crate::faults::ShownRefusal;
use crate::regions::Intervals;
use crate::seconds::Seconds;
use region::Region;
use run::call::{Entry, Reply};
use runs::{Answer, Standing};
use std::fmt;

// Whether a call was refused.
fn is_refused(entry: &Entry) -> bool
    ensures { result ≡ refused_in entry.now.reply }
{
    matches!(entry.reply, Reply::Answered(Err(_)))
}

// Whether a history ends with this entry: the run is decided, or the call was refused.
fn is_last(entry: &Entry) -> bool
    ensures { result ≡ ends_with entry.now }
{
    !entry.standing.is_open() || is_refused(entry)
}

// The entries up to the first that ends the history, with that one.
fn told(entries: &[Entry]) -> &[Entry]
    ensures { result.now ≡ told_to_the_end entries.now }
{
    match entries.iter().position(is_last) {
        Some(last) => &entries[..=last],
        None => entries,
    }
}

// One step, from the region where it began.
#[derive(Clone, Copy)]
struct Step<'a> {
    before: &'a Region,
    entry: &'a Entry,
}

impl<'a> fmt::Display for Step<'a> {
    fn fmt<W: fmt::Write>(&self, f: &mut fmt::Formatter<W>) -> fmt::Result {
        let timers = Intervals(&self.entry.at.region);
        match self.entry.reply {
            Reply::Answered(
                Ok(
                    Answer::Taken {
                        change,
                        wait,
                        outcome,
                    },
                ),
            ) => {
                let wait = Seconds::of_wait(wait, self.before);
                let stage = self.entry.at.stage;
                write!(f, "waits {wait}, change {change} with outcome {outcome} ")?;
                write!(f, "leads to stage {stage}; {timers}")
            }
            Reply::Answered(Ok(Answer::Met { wait })) => {
                let wait = Seconds::of_wait(wait, self.before);
                write!(f, "waits {wait} and meets the goal on the way; {timers}")
            }
            Reply::Answered(Ok(Answer::RanOut)) => write!(f, "nothing more can happen"),
            Reply::Answered(Err(refusal)) => write!(f, "{}", ShownRefusal(refusal)),
            Reply::Offered(_) | Reply::Stands(_) => write!(f, "nothing is done; {timers}"),
        }
    }
}

// What came of a run after so many steps.
#[derive(Clone, Copy)]
struct Ending<'a> {
    last: &'a Entry,
    steps: usize,
}

impl<'a> fmt::Display for Ending<'a> {
    fn fmt<W: fmt::Write>(&self, f: &mut fmt::Formatter<W>) -> fmt::Result {
        let stage = self.last.at.stage;
        match self.last.standing {
            Standing::Open => write!(f, "still open")?,
            Standing::Reached => write!(f, "the goal is reached")?,
            Standing::Failed => write!(f, "failed in stage {stage}")?,
            Standing::Stuck => write!(f, "stuck in stage {stage}")?,
        }
        let steps = self.steps;
        let noun = if steps == 1 { "step" } else { "steps" };
        write!(f, " after {steps} {noun}")
    }
}

// The entries of a run, the first made at its opening and each other by a step. It is told up to the entry that decides the run or refuses a step.
#[derive(Clone, Copy)]
pub struct History<'a>(pub &'a [Entry]);

impl<'a> fmt::Display for History<'a> {
    fn fmt<W: fmt::Write>(&self, f: &mut fmt::Formatter<W>) -> fmt::Result {
        let told = told(self.0);
        let (Some((opening, steps)), Some(last)) = (told.split_first(), told.last()) else {
            return Ok(());
        };
        let stage = opening.at.stage;
        let timers = Intervals(&opening.at.region);
        writeln!(f, "opens in stage {stage} with {timers}")?;
        for (place, (before, entry)) in told.iter().zip(steps).enumerate() {
            let number = place + 1;
            let before = &before.at.region;
            writeln!(f, "{number}: {}", Step { before, entry })?;
        }
        let steps = steps.iter().filter(|entry| !is_refused(entry)).count();
        writeln!(f, "{}", Ending { last, steps })
    }
}
