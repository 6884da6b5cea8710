// What a plan file says.
ghost use Rattle.std.specs.Prelude.{IfOk};
ghost use Rattle.runs.specs.Tables.{plan_in};
ghost use Rattle.commands.specs.Files.{rows_read};
ghost use Rattle.commands.specs.Warned.{WarnsWell};

use crate::failure::Failure;
use crate::files::PlanFile;
use crate::options::file_of;
use clap::ArgMatches;
use describe::plan_warning::ShownWarning;
use describe::plans::ShownPlan;
use offers::sound_plan::Plan;
use plan::handed::Handed;
use std::alloc::{AllocError, Global};
use warnings::{Warning, warnings};

// The warnings of the plan of a file.
fn warnings_of(heap: Global, file: &PlanFile) -> Result<Vec<Warning>, AllocError>
    ensures { IfOk result (λ found. WarnsWell (plan_in (rows_read file.now)) found.items) }
{
    warnings(heap, Plan::of_tables(file.handed()))
}

// Prints the six counts and the plan in words, or the rule that the file breaks, and what a planner
// is warned of.
fn print_plan(rt: &HostRuntime, path: &str) -> anyhow::Result<()> {
    let file = PlanFile::open(rt, path)?;
    let Handed { tables, counts } = file.handed();
    println!(rt;
        "{} timers, {} comparisons, {} stages, {} changes, {} outcomes, {} goal",
        counts.timers,
        counts.comparisons,
        counts.stages,
        counts.changes,
        counts.outcomes,
        counts.goals
    )?;
    print!(rt; "{}", ShownPlan(tables))?;
    let timers = tables.timers;
    for warning in warnings_of(rt.alloc(), &file)?.iter() {
        println!(rt;
            "{}",
            ShownWarning {
                warning: *warning,
                timers
            }
        )?;
    }
    Ok(())
}

// Says what is in a plan file.
pub fn check(rt: &HostRuntime, given: &ArgMatches<'_>) -> Result<(), Failure> {
    print_plan(rt, file_of(given, "PLAN"))?;
    Ok(())
}
