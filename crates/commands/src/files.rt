// Plan files, the tables that they are read into, and other files.
ghost use Rattle.std.specs.Prelude.{◌≡◌, ℕ, List, true, IfOk};
ghost use Rattle.offers.specs.Checked.{checked};
ghost use Rattle.plan.specs.Handed.{held_by};
ghost use Rattle.reader.specs.Owned.{owned_in};
ghost use Rattle.rows.specs.Plans.{counts_of};
ghost use Rattle.rows.specs.Verdicts.{faultless};

use anyhow::anyhow;
use describe::faults::Refused;
use describe::kinds::{NoPlan, plainly_no_plan};
use plan::handed::{Handed, Tables};
use plan::records::Records;
use reader::owned::OwnedTables;
use rows::fault::Fault;
use rows::section::Counts;
use std::alloc::{AllocError, Global};
use std::fs;

// The rows of a plan file. They break no rule.
#[derive(Drop)]
pub struct PlanFile {
    rows: OwnedTables,
    ghost sound: { faultless (owned_in rows) ≡ true },
}

impl PlanFile {
    ghost use Rattle.commands.specs.Files.{FileOf, ReadAs, rows_read};

    // Reads a plan file: what it answers is the plan of some bytes, and no contract can say that
    // they are those of the path. The rule that a refused one breaks is printed, but of a text.
    pub fn open(rt: &HostRuntime, path: &str) -> anyhow::Result<PlanFile>
        ensures { IfOk result (λ file. (bytes : List ℕ) × FileOf bytes (rows_read file)) }
    {
        let bytes = fs::read(rt, path).map_err(|e| anyhow!("cannot read {path}: {e}"))?;
        match PlanFile::of_bytes(rt.alloc(), &bytes)? {
            Ok(file) => Ok(file),
            Err(fault) => Err(refused(rt, path, &bytes, fault)?),
        }
    }

    // The plan whose file these bytes are, or the rule that they break. The fault stands inside: it
    // is told on standard output, and is no error of the program.
    pub fn of_bytes(heap: Global, bytes: &[u8]) -> Result<Result<PlanFile, Fault>, AllocError>
        ensures { IfOk result (ReadAs bytes.now) }
    {
        let mut rows = OwnedTables::of(heap, Counts::largest())?;
        match rows.read(bytes) {
            Ok(counts) => {
                rows.cut(&counts);
                Ok(Ok(PlanFile { rows }))
            }
            // Bytes that are refused have a fault.
            Err(_) => Ok(Err(rows.fault_in(bytes).unwrap())),
        }
    }

    // The rows of the plan, and how many of each there are.
    pub fn handed(&self) -> Handed<'_>
        ensures rows { held_by result.tables ≡ rows_read self.now }
        ensures counts { result.counts ≡ counts_of (rows_read self.now) }
        ensures the_plan_read_is_the_plan_that_runs { checked result ≡ rows_read self.now }
    {
        let tables = self.tables();
        Handed {
            tables,
            counts: tables.counts(),
        }
    }

    // The rows of the plan.
    pub fn tables(&self) -> Tables<'_>
        ensures { held_by result ≡ rows_read self.now }
    {
        self.rows.view()
    }
}

// What is said of a file that is refused. The rule that it breaks is what was asked for, so it goes
// to standard output; a text breaks none of a plan's.
fn refused(
    rt: &HostRuntime,
    path: &str,
    bytes: &[u8],
    fault: Fault,
) -> anyhow::Result<anyhow::Error> {
    let kind = plainly_no_plan(bytes);
    if kind != Some(NoPlan::Text) {
        println!(rt; "{}", Refused(fault))?;
    }
    Ok(match kind {
        Some(kind) => anyhow!("{path} is no plan file: {kind}"),
        None => anyhow!("the plan {path} is {}", Refused(fault)),
    })
}

// The text of a file.
pub fn text_of(rt: &HostRuntime, path: &str) -> anyhow::Result<String> {
    fs::read_to_string(rt, path).map_err(|e| anyhow!("cannot read {path}: {e}"))
}
