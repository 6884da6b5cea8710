// Makes the calls of a list and tells what each replies.
ghost use Rattle.std.specs.Prelude.{◌≡◌, ◌≤◌, map, length, IfOk, IsOkAnd};
ghost use Rattle.draws.specs.Either.{coming_of};
ghost use Rattle.offers.specs.Checked.{checked};
ghost use Rattle.run.specs.Calls.{calls_of, entry_of};
ghost use Rattle.runs.specs.Runs.{opening, told_of};
ghost use Rattle.runs.specs.Tables.{plan_in};
ghost use Rattle.schedulers.specs.Choosers.{meaning_of};
ghost use Rattle.commands.specs.Files.{rows_read};
ghost use Rattle.commands.specs.Replays.{LinesAsk};
ghost use Rattle.commands.specs.Sources.{book_asked};

use crate::command::Command;
use crate::failure::Failure;
use crate::files::{PlanFile, text_of};
use crate::options::{Options, file_of};
use crate::sources::Draws;
use anyhow::{Context, anyhow};
use clap::ArgMatches;
use describe::calls::call;
use describe::entries::ShownEntry;
use draws::either::Source;
use logs::Log;
use plan::handed::Handed;
use rows::refusal::Refusal;
use run::call::{Call, Entry};
use run::replay::replay;
use schedulers::chooser::Chooser;
use std::alloc::Global;

// The most calls that a file may have.
const MOST_CALLS: usize = 10_000;

// The calls that the text of a file asks for, one to a line.
// The path is told where a line is no call.
fn calls_for(heap: Global, path: &str, text: &str) -> anyhow::Result<Vec<Call<Chooser>>>
    ensures asked { IfOk result (λ calls. LinesAsk text.now calls.items) }
    ensures few { IfOk result (λ calls. length calls.items ≤ 10000) }
{
    let mut calls = Vec::new(heap);
    for line in text.lines() {
        let number = calls.len() + 1;
        if number > MOST_CALLS {
            return Err(anyhow!("{path} has more than {MOST_CALLS} calls"));
        }
        let asked = call(line).context(format_args!("line {number} of {path} is no call: {line}"))?;
        calls.push(asked)?;
    }
    Ok(calls)
}

// Fills rows with what is told of each call. The rows are lent to a function of their own: what a
// `Vec` lends to a log comes back with nothing known of it.
fn fill_entries(
    handed: Handed<'_>,
    source: &mut Source<'_>,
    calls: &[Call<Chooser>],
    rows: &mut [Entry],
) -> Result<(), Refusal>
    requires { length rows.old ≡ length calls.now }
    ensures { let plan = plan_in (checked handed.entry) in
        let told = told_of plan (opening plan (coming_of source.old)) in
        IsOkAnd result (λ _. map entry_of rows.new ≡ told (calls_of meaning_of calls.now)) }
{
    let mut log = Log::new(rows);
    replay(handed, source, calls, &mut log)
}

// The entry of each call of a list, on the plan of a file and with the draws to come of a source.
pub fn entries_at(
    rt: &HostRuntime,
    file: &PlanFile,
    source: &mut Source<'_>,
    calls: &[Call<Chooser>],
) -> anyhow::Result<Vec<Entry>>
    ensures { let plan = plan_in (rows_read file.now) in
        let told = told_of plan (opening plan (coming_of source.old)) in
        IfOk result (λ entries.
        map entry_of entries.items ≡ told (calls_of meaning_of calls.now)) }
{
    let mut rows = vec![in rt.alloc(); Entry::blank(); calls.len()]?;
    fill_entries(file.handed(), source, calls, &mut rows)?;
    Ok(rows)
}

// The entry of each call of a list, on the plan of a file and with the row of the draws that the
// options name.
pub fn entries_of(
    rt: &HostRuntime,
    file: &PlanFile,
    draws: &Draws<Vec<u32>>,
    options: &Options,
    calls: &[Call<Chooser>],
) -> anyhow::Result<Vec<Entry>>
    ensures { let plan = plan_in (rows_read file.now) in
        let told = told_of plan (opening plan (book_asked draws.now options.now.row)) in
        IfOk result (λ entries.
        map entry_of entries.items ≡ told (calls_of meaning_of calls.now)) }
{
    entries_at(rt, file, &mut draws.source_at(options.row), calls)
}

// Makes the calls of a file, and prints a line for each.
fn print_replies(
    rt: &HostRuntime,
    plan: &str,
    path: &str,
    options: &Options,
) -> anyhow::Result<()> {
    let file = PlanFile::open(rt, plan)?;
    let text = text_of(rt, path)?;
    let calls = calls_for(rt.alloc(), path, text.as_str())?;
    let draws = options.draws.load(rt)?;
    let entries = entries_of(rt, &file, &draws, options, &calls)?;
    for entry in entries.iter() {
        println!(rt; "{}", ShownEntry(entry))?;
    }
    Ok(())
}

// Makes the calls of a file.
pub fn replay_file(rt: &HostRuntime, given: &ArgMatches<'_>) -> Result<(), Failure> {
    let options = Options::of(rt.alloc(), Command::Replay, given)?;
    print_replies(
        rt,
        file_of(given, "PLAN"),
        file_of(given, "CALLS"),
        &options,
    )?;
    Ok(())
}
