// Runs a plan by a scheduler and tells its history.
ghost use Rattle.std.specs.Prelude.{◌≡◌, ◌∷◌, map, replicate, IfOk};
ghost use Rattle.run.specs.Calls.{calls_of, entry_of};
ghost use Rattle.run.specs.declared.call.Call.TheVariants.{Standing, Step};
ghost use Rattle.runs.specs.Runs.{opening, told_of};
ghost use Rattle.runs.specs.Tables.{plan_in};
ghost use Rattle.schedulers.specs.Choosers.{meaning_of};
ghost use Rattle.commands.specs.Files.{rows_read};
ghost use Rattle.commands.specs.Sources.{book_asked};

use crate::command::Command;
use crate::failure::Failure;
use crate::files::PlanFile;
use crate::options::{Options, file_of};
use crate::replay::entries_of;
use crate::sources::Draws;
use clap::ArgMatches;
use describe::history::History;
use run::call::{Call, Entry};
use schedulers::chooser::Chooser;
use std::alloc::{AllocError, Global};

// A look at the opening, then so many steps by one scheduler.
fn steps_by(heap: Global, scheduler: Chooser, steps: u32) -> Result<Vec<Call<Chooser>>, AllocError>
    ensures { IfOk result (λ calls. calls.items ≡ Standing ∷ replicate steps (Step scheduler)) }
{
    let mut calls = vec![in heap; Call::Standing]?;
    calls.resize(1 + steps as usize, Call::Step(scheduler))?;
    Ok(calls)
}

// The entries of a run on the plan of a file: a look at its opening, and then the steps, by the
// scheduler and with the row of the draws that the options name.
fn run_entries(
    rt: &HostRuntime,
    file: &PlanFile,
    draws: &Draws<Vec<u32>>,
    options: &Options,
) -> anyhow::Result<Vec<Entry>>
    ensures { let plan = plan_in (rows_read file.now) in
        let told = told_of plan (opening plan (book_asked draws.now options.now.row)) in
        let steps = replicate options.now.limits.steps (Step options.now.scheduler) in
        IfOk result (λ entries.
        map entry_of entries.items ≡ told (calls_of meaning_of (Standing ∷ steps))) }
{
    let calls = steps_by(rt.alloc(), options.scheduler, options.limits.steps)?;
    entries_of(rt, file, draws, options, &calls)
}

// Runs a plan and prints what happens, a line for each step.
fn print_history(rt: &HostRuntime, path: &str, options: &Options) -> anyhow::Result<()> {
    let file = PlanFile::open(rt, path)?;
    let draws = options.draws.load(rt)?;
    print!(rt; "{}", History(&run_entries(rt, &file, &draws, options)?))?;
    Ok(())
}

// Runs a plan by a scheduler.
pub fn run_plan(rt: &HostRuntime, given: &ArgMatches<'_>) -> Result<(), Failure> {
    let options = Options::of(rt.alloc(), Command::Run, given)?;
    print_history(rt, file_of(given, "PLAN"), &options)?;
    Ok(())
}
