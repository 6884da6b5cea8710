// What may happen first: the changes of stage 0 that are possible with all timers at zero.
ghost use Rattle.std.specs.Prelude.{◌≡◌, ◌∷◌, [], map, IfOk};
ghost use Rattle.run.specs.Calls.{entry_of};
ghost use Rattle.runs.specs.Tables.{plan_in};
ghost use Rattle.commands.specs.Files.{rows_read};
ghost use Rattle.commands.specs.Openings.{shown_at_opening};

use crate::failure::Failure;
use crate::files::PlanFile;
use crate::options::file_of;
use crate::replay::entries_at;
use clap::ArgMatches;
use describe::offered::OfferAtZero;
use draws::either::Source;
use draws::mixed::Mixed;
use run::call::{Call, Entry, Reply};
use runs::Standing;

// Prints what a run shows where it opens: each possible change with its waits in seconds and in
// steps, or how the run is decided there.
fn print_opening(rt: &HostRuntime, entry: &Entry) -> anyhow::Result<()> {
    let decided = "the run is decided at its opening";
    match entry.standing {
        Standing::Reached => println!(rt; "{decided}: the goal is reached in stage 0")?,
        Standing::Failed => println!(rt; "{decided}: it fails in stage 0, which is to be avoided")?,
        Standing::Open | Standing::Stuck => {}
    }
    if let Reply::Offered(offers) = &entry.reply {
        if entry.standing.is_open() && offers.is_empty() {
            println!(rt; "no change of stage 0 is possible")?;
        }
        for offer in offers.as_slice() {
            println!(rt; "{}", OfferAtZero(*offer))?;
        }
    }
    Ok(())
}

// What a run on the plan of a file shows where it opens. Nothing is drawn there, so that any source
// serves.
fn shown_first(rt: &HostRuntime, file: &PlanFile) -> anyhow::Result<Vec<Entry>>
    ensures { let plan = plan_in (rows_read file.now) in
        IfOk result (λ entries. map entry_of entries.items ≡ shown_at_opening plan ∷ []) }
{
    let mut source = Source::Mixed(Mixed::new(0));
    entries_at(rt, file, &mut source, &[Call::Offers])
}

// Says what may happen first on the plan of a file.
fn print_first(rt: &HostRuntime, path: &str) -> anyhow::Result<()> {
    let file = PlanFile::open(rt, path)?;
    for entry in shown_first(rt, &file)?.iter() {
        print_opening(rt, entry)?;
    }
    Ok(())
}

// Says what may happen first.
pub fn possible(rt: &HostRuntime, given: &ArgMatches<'_>) -> Result<(), Failure> {
    print_first(rt, file_of(given, "PLAN"))?;
    Ok(())
}
