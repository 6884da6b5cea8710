// The check of handed tables.
ghost use Rattle.std.specs.Prelude.{◌≡◌, is_ok, Decides};
ghost use Rattle.std.specs.Result.{result_err};
ghost use Rattle.rows.specs.Plans.{counts_of};
ghost use Rattle.rows.specs.Sections.{section_names};
ghost use Rattle.rows.specs.Sound.{Fits, Sound};
ghost use Rattle.rows.specs.Verdicts.{count_fault, first_broken, first_in, room_rules};
ghost use Rattle.rows.specs.Verdicts.{refusal_told};
ghost use Rattle.plan.specs.Handed.{counted_in, fault_in, held_by};

use crate::check::check_rows;
use crate::handed::Handed;
use crate::records::Records;
use rows::fault::{Fault, Where, placed};
use rows::refusal::Refusal;
use rows::section::{Counts, SECTIONS, SectionName};

// The count of a section whose table has some room, or the rule that it breaks.
pub fn check_count(section: SectionName, room: usize, count: usize) -> Result<(), Refusal>
    ensures { result_err result ≡ first_broken (room_rules section room count) }
{
    if !(section.least()..=section.most()).contains(&count) {
        return Err(Refusal::CountOffLimits);
    }
    if count > room {
        return Err(Refusal::TableTooSmall);
    }
    Ok(())
}

// The counts, or the first that is off its limits or does not fit its table.
fn check_counts(rooms: &Counts, n: &Counts) -> Result<(), Fault>
    ensures { result_err result ≡ first_in (count_fault rooms.now n.now) section_names }
{
    for section in SECTIONS {
        let checked = check_count(section, rooms.of(section), n.of(section));
        placed(checked, Where::Section(section))?;
    }
    Ok(())
}

// The counts and then the rows of handed tables, or the first rule that they break.
// Rows past the counts are not looked at.
fn check_handed(handed: Handed<'_>) -> Result<(), Fault>
    ensures { result_err result ≡ fault_in handed.entry }
{
    check_counts(&handed.tables.counts(), &handed.counts)?;
    check_rows(&handed.rows())
}

// Whether handed tables hold a sound plan, or the refusal for the first rule that they break.
pub fn check_tables(handed: Handed<'_>) -> Result<(), Refusal>
    ensures answer { result_err result ≡ refusal_told (fault_in handed.entry) }
    ensures tables_pass_exactly_if_they_are_sound { Decides (is_ok result)
        (Fits handed.entry.counts (counts_of (held_by handed.entry.tables))
        × Sound (counted_in handed.entry)) }
{
    check_handed(handed).map_err(|fault| fault.refusal)
}

// The first rule that handed tables break and where they do, so that a planner can mend them;
// none where they hold a sound plan.
pub fn fault_in_tables(handed: Handed<'_>) -> Option<Fault>
    ensures { result ≡ fault_in handed.entry }
{
    check_handed(handed).err()
}
