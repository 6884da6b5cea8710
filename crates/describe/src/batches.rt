// Batches in words: a line for each row, and the rows that reached most and least often.
use batch::BatchRow;
use batch::ranking::{fewest_reached, most_reached};
use std::fmt;

// The five numbers of a row.
#[derive(Clone, Copy)]
struct ShownRow(BatchRow);

impl fmt::Display for ShownRow {
    fn fmt<W: fmt::Write>(&self, f: &mut fmt::Formatter<W>) -> fmt::Result {
        let BatchRow {
            identifier,
            reached,
            failed,
            stuck,
            unfinished,
        } = self.0;
        write!(f, "{identifier} {reached} {failed} {stuck} {unfinished}")
    }
}

// A row by how often it reached the goal, as `4 10000 of 10000`.
#[derive(Clone, Copy)]
struct Ranked {
    row: BatchRow,
    runs: u32,
}

impl fmt::Display for Ranked {
    fn fmt<W: fmt::Write>(&self, f: &mut fmt::Formatter<W>) -> fmt::Result {
        let identifier = self.row.identifier;
        let reached = self.row.reached;
        let runs = self.runs;
        write!(f, "{identifier} {reached} of {runs}")
    }
}

// The rows of a batch with so many runs each, and the two foremost.
#[derive(Clone, Copy)]
pub struct ShownBatch<'a> {
    pub rows: &'a [BatchRow],
    pub runs: u32,
}

impl<'a> fmt::Display for ShownBatch<'a> {
    fn fmt<W: fmt::Write>(&self, f: &mut fmt::Formatter<W>) -> fmt::Result {
        let rows = self.rows;
        let runs = self.runs;
        writeln!(f, "identifier reached failed stuck unfinished")?;
        for row in rows {
            writeln!(f, "{}", ShownRow(*row))?;
        }
        let foremost = [
            ("most", most_reached(rows)),
            ("fewest", fewest_reached(rows)),
        ];
        for (name, place) in foremost {
            if let Some(place) = place {
                let row = rows[place];
                writeln!(f, "{name} reached: {}", Ranked { row, runs })?;
            }
        }
        Ok(())
    }
}
