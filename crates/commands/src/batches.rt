// Runs many sampled schedulers and tells how often each reached the goal.
ghost use Rattle.std.specs.Prelude.{◌≡◌, codes, length, Some, None, IfOk, MatchResult};
ghost use Rattle.batch.specs.Batches.{all_made, refusal_of, runs_made};
ghost use Rattle.describe.specs.Losses.{chooser_of};
ghost use Rattle.schedulers.specs.Choosers.{meaning_of};
ghost use Rattle.commands.specs.Options.{said};
ghost use Rattle.std.specs.Option.{option_map};
ghost use Rattle.draws.specs.Either.{book_of, coming_of};
ghost use Rattle.offers.specs.Checked.{checked};
ghost use Rattle.runs.specs.Tables.{plan_in};
ghost use Rattle.commands.specs.Files.{rows_read};
ghost use Rattle.commands.specs.Sources.{book_asked};

use crate::command::Command;
use crate::failure::Failure;
use crate::files::PlanFile;
use crate::options::{Options, file_of};
use crate::sources::Draws;
use anyhow::anyhow;
use batch::beside::runs_by;
use batch::watch::Watch;
use batch::{BatchRow, Limits, batch};
use clap::ArgMatches;
use describe::batches::ShownBatch;
use describe::csv_rows::csv_text;
use describe::losses::{Beside, Named};
use describe::tables::BatchTable;
use draws::either::Source;
use logs::Log;
use plan::handed::Handed;
use rows::refusal::Refusal;
use std::fs;
use std::num::NonZeroUsize;

// Tells on standard error how many rows are done, each time that so many more are, if at all.
#[derive(Drop)]
struct Progress<'a> {
    rt: &'a HostRuntime,
    done: usize,
    rows: usize,
    every: Option<NonZeroUsize>,
}

// The most runs that are over too soon to tell of progress.
const FEW_RUNS: usize = 1_000_000;

// After how many rows to tell of progress: a tenth of them, or never where the runs are few.
fn rows_between(rows: usize, runs: u32) -> Option<NonZeroUsize> {
    if rows.saturating_mul(runs as usize) <= FEW_RUNS {
        return None;
    }
    NonZeroUsize::new((rows / 10).max(1))
}

impl<'a> Watch for Progress<'a> {
    fn row_done(&mut self, _row: &BatchRow) {
        self.done = self.done.saturating_add(1);
        if self.every.is_some_and(|rows| self.done % rows.get() == 0) {
            let done = self.done;
            let rows = self.rows;
            let _ = eprintln!(self.rt; "{done} of {rows} schedulers");
        }
    }
}

// Fills rows, one for each identifier. The rows are lent to a function of their own: what a `Vec`
// lends to a log comes back with nothing known of it.
fn fill_rows(
    rt: &HostRuntime,
    handed: Handed<'_>,
    source: &mut Source<'_>,
    identifiers: &[u32],
    limits: Limits,
    rows: &mut [BatchRow],
) -> Result<(), Refusal>
    requires { length rows.old ≡ length identifiers.now }
    ensures { let plan = plan_in (checked handed.entry) in
        let made = all_made plan (book_of source.old) (coming_of source.old) in
        let n = length identifiers.now in
        MatchResult result
        (λ _. (refusal_of n limits n ≡ None) × (rows.new ≡ (made limits identifiers.now).rows))
        (λ e. (refusal_of n limits n ≡ Some e) × (rows.new ≡ rows.old)) }
{
    let mut log = Log::new(rows);
    let mut watch = Progress {
        rt,
        done: 0,
        rows: identifiers.len(),
        every: rows_between(identifiers.len(), limits.runs),
    };
    batch(handed, source, identifiers, limits, &mut log, &mut watch)
}

// The rows of all identifiers of the options, on the plan of a file and with the draws that were
// asked for.
fn rows_of(
    rt: &HostRuntime,
    file: &PlanFile,
    draws: &Draws<Vec<u32>>,
    options: &Options,
) -> anyhow::Result<Vec<BatchRow>>
    ensures { let book = book_asked draws.now in
        let ids = options.now.identifiers.items in
        let limits = options.now.limits in
        let made = all_made (plan_in (rows_read file.now)) book (book 0) limits ids in
        let n = length ids in
        IfOk result (λ rows. (refusal_of n limits n ≡ None) × (rows.items ≡ made.rows)) }
{
    let identifiers = &options.identifiers;
    let mut rows = vec![in rt.alloc(); BatchRow::default(); identifiers.len()]?;
    let limits = options.limits;
    let handed = file.handed();
    let mut source = draws.source_at(0);
    fill_rows(rt, handed, &mut source, identifiers, limits, &mut rows)?;
    Ok(rows)
}

// What a scheduler that is not sampled comes to in the runs that each identifier has, with an
// allowance of its own.
fn beside_of(
    file: &PlanFile,
    draws: &Draws<Vec<u32>>,
    name: Named,
    limits: Limits,
) -> Result<Beside, Refusal>
    ensures { let book = book_asked draws.now in
        let made = runs_made (plan_in (rows_read file.now)) book (book 0) limits in
        let tally = (made (meaning_of (chooser_of name))).tally in
        MatchResult result (λ b. b ≡ record { name = name; tally = tally })
        (λ e. refusal_of 1 limits 1 ≡ Some e) }
{
    let mut source = draws.source_at(0);
    let tally = runs_by(file.handed(), &mut source, &name.chooser(), limits)?;
    Ok(Beside { name, tally })
}

// How a batch is printed: its counts alone, or with shares; beside other schedulers; to a file too.
#[derive(Clone, Copy)]
struct Shown<'a> {
    is_plain: bool,
    has_beside: bool,
    csv: Option<&'a str>,
}

impl<'a> Shown<'a> {
    // As the options of a batch say.
    fn of(given: &ArgMatches<'a>) -> Shown<'a>
        ensures csv { option_map (λ s. s.now) result.csv ≡ said given.now (codes "csv") }
    {
        Shown {
            is_plain: given.get_flag("plain"),
            has_beside: given.get_flag("earliest-latest"),
            csv: given.get_str("csv"),
        }
    }
}

// Writes rows to a file as comma-separated values.
fn write_csv(rt: &HostRuntime, path: &str, rows: &[BatchRow], runs: u32) -> anyhow::Result<()> {
    let text = csv_text(rt.alloc(), rows, runs).map_err(|e| anyhow!("{e}"))?;
    fs::write(rt, path, &text).map_err(|e| anyhow!("cannot write {path}: {e}"))?;
    Ok(())
}

// What the earliest and the latest scheduler come to.
fn both_beside(
    file: &PlanFile,
    draws: &Draws<Vec<u32>>,
    limits: Limits,
) -> Result<[Beside; 2], Refusal> {
    Ok([
        beside_of(file, draws, Named::Earliest, limits)?,
        beside_of(file, draws, Named::Latest, limits)?,
    ])
}

// Prints the rows of a batch, as it is to be shown.
fn print_rows(
    rt: &HostRuntime,
    file: &PlanFile,
    draws: &Draws<Vec<u32>>,
    limits: Limits,
    rows: &[BatchRow],
    shown: Shown<'_>,
) -> anyhow::Result<()> {
    let runs = limits.runs;
    if shown.is_plain {
        print!(rt; "{}", ShownBatch { rows, runs })?;
    } else if shown.has_beside {
        let beside = both_beside(file, draws, limits)?;
        print!(rt;
            "{}",
            BatchTable {
                rows,
                beside: &beside,
                runs
            }
        )?;
    } else {
        print!(rt;
            "{}",
            BatchTable {
                rows,
                beside: &[],
                runs
            }
        )?;
    }
    Ok(())
}

// Runs a batch and prints its rows, and writes them to a file if that is asked for.
fn print_batch(
    rt: &HostRuntime,
    path: &str,
    options: &Options,
    shown: Shown<'_>,
) -> anyhow::Result<()> {
    let file = PlanFile::open(rt, path)?;
    let draws = options.draws.load(rt)?;
    let limits = options.limits;
    let rows = rows_of(rt, &file, &draws, options)?;
    print_rows(rt, &file, &draws, limits, &rows, shown)?;
    match shown.csv {
        Some(csv) => write_csv(rt, csv, &rows, limits.runs),
        None => Ok(()),
    }
}

// Runs a batch. The file of its rows is not the plan's.
pub fn run_batch(rt: &HostRuntime, given: &ArgMatches<'_>) -> Result<(), Failure> {
    let options = Options::of(rt.alloc(), Command::Batch, given)?;
    let plan = file_of(given, "PLAN");
    let shown = Shown::of(given);
    if shown.csv == Some(plan) || shown.csv.is_some() && shown.csv == given.get_str("tape") {
        return Err(Failure::Words(anyhow!("--csv would write over a file that is read")));
    }
    print_batch(rt, plan, &options, shown)?;
    Ok(())
}
