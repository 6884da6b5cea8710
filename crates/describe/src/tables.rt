// Batches as tables, with shares in percent.
use crate::loss_warning::LossWarning;
use crate::losses::Beside;
use crate::shares::{HalfWidth, Share};
use batch::BatchRow;
use batch::ranking::{fewest_reached, most_reached};
use batch::tally::Tally;
use std::fmt;

// What the half-width says, and what it does not.
const HALF_WIDTH: &str = "half-width: for one scheduler with well-mixed draws, 95 % by Hoeffding's \
    bound; the best or worst of many tried needs more runs to be as sure";

// The columns of a line behind its name.
#[derive(Clone, Copy)]
struct Columns {
    tally: Tally,
    runs: u32,
}

impl fmt::Display for Columns {
    fn fmt<W: fmt::Write>(&self, f: &mut fmt::Formatter<W>) -> fmt::Result {
        let Columns { tally, runs } = *self;
        let Tally {
            reached,
            failed,
            stuck,
            unfinished,
        } = tally;
        let share = Share::of(reached, runs);
        let half_width = HalfWidth::of(runs);
        write!(f, " {reached:>7} {failed:>6} {stuck:>5} {unfinished:>10}")?;
        write!(f, " {share:>6} {half_width:>10}")
    }
}

// A row by its share, as `scheduler 3 with 52.1% (521 of 1000 runs)`.
#[derive(Clone, Copy)]
struct Ranked {
    row: BatchRow,
    runs: u32,
}

impl fmt::Display for Ranked {
    fn fmt<W: fmt::Write>(&self, f: &mut fmt::Formatter<W>) -> fmt::Result {
        let identifier = self.row.identifier;
        let reached = self.row.reached;
        let runs = self.runs;
        let share = Share::of(reached, runs);
        let noun = if runs == 1 { "run" } else { "runs" };
        write!(
            f,
            "scheduler {identifier} with {share} ({reached} of {runs} {noun})"
        )
    }
}

// The best and the worst of the sampled rows.
#[derive(Clone, Copy)]
struct BestAndWorst<'a> {
    rows: &'a [BatchRow],
    runs: u32,
    has_beside: bool,
}

impl<'a> fmt::Display for BestAndWorst<'a> {
    fn fmt<W: fmt::Write>(&self, f: &mut fmt::Formatter<W>) -> fmt::Result {
        let rows = self.rows;
        let runs = self.runs;
        let those = if self.has_beside {
            "those tried, the sampled ones"
        } else {
            "those tried"
        };
        let foremost = [
            ("best", most_reached(rows)),
            ("worst", fewest_reached(rows)),
        ];
        for (name, place) in foremost {
            if let Some(place) = place {
                let row = rows[place];
                writeln!(f, "{name} of {those}: {}", Ranked { row, runs })?;
            }
        }
        Ok(())
    }
}

// The table of a batch with so many runs for each scheduler: a line for each sampled scheduler and
// for each beside them, the best and the worst of the sampled ones, and a warning where one is due.
#[derive(Clone, Copy)]
pub struct BatchTable<'a> {
    pub rows: &'a [BatchRow],
    pub beside: &'a [Beside],
    pub runs: u32,
}

impl<'a> fmt::Display for BatchTable<'a> {
    fn fmt<W: fmt::Write>(&self, f: &mut fmt::Formatter<W>) -> fmt::Result {
        let rows = self.rows;
        let beside = self.beside;
        let runs = self.runs;
        writeln!(
            f,
            "identifier reached failed stuck unfinished  share half-width"
        )?;
        for row in rows {
            let tally = row.tally();
            writeln!(f, "{:>10}{}", row.identifier, Columns { tally, runs })?;
        }
        for other in beside {
            let tally = other.tally;
            writeln!(f, "{:>10}{}", other.name, Columns { tally, runs })?;
        }
        let has_beside = !beside.is_empty();
        write!(
            f,
            "{}",
            BestAndWorst {
                rows,
                runs,
                has_beside
            }
        )?;
        writeln!(f, "{HALF_WIDTH}")?;
        if let Some(warning) = LossWarning::of(rows, beside, runs) {
            writeln!(f, "{warning}")?;
        }
        Ok(())
    }
}
