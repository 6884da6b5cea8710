// The sections of a plan file, cut off its bytes one after the other.
ghost use Rattle.std.specs.Prelude.{◌≡◌, ◌*◌, length, Some, MatchResult};
ghost use Rattle.std.specs.Result.{result_err};
ghost use Rattle.rows.specs.Files.{layout_rules, part_fault};
ghost use Rattle.rows.specs.Verdicts.{first_broken};
ghost use Rattle.reader.specs.Parts.{Cut, bytes_in, name_in};

use crate::bytes::word;
use plan::tables::check_count;
use rows::fault::{Fault, Where, placed};
use rows::refusal::Refusal;
use rows::section::{Counts, SectionName};

// A section as the part of the file that its records fill. The project fixes this form: an enum whose cases hold parts of the file.
#[derive(Clone, Copy)]
pub(crate) enum Section<'a> {
    Timers(&'a [u8]),
    Comparisons(&'a [u8]),
    Stages(&'a [u8]),
    Changes(&'a [u8]),
    Outcomes(&'a [u8]),
    Goal(&'a [u8]),
}

impl<'a> Section<'a> {
    fn new(name: SectionName, part: &'a [u8]) -> Section<'a>
        ensures named { name_in result ≡ name }
        ensures holds { bytes_in result ≡ part.now }
    {
        match name {
            SectionName::Timers => Section::Timers(part),
            SectionName::Comparisons => Section::Comparisons(part),
            SectionName::Stages => Section::Stages(part),
            SectionName::Changes => Section::Changes(part),
            SectionName::Outcomes => Section::Outcomes(part),
            SectionName::Goal => Section::Goal(part),
        }
    }

    // The bytes of its records.
    pub fn bytes(self) -> &'a [u8]
        ensures { result.now ≡ bytes_in self.entry }
    {
        match self {
            Section::Timers(part)
            | Section::Comparisons(part)
            | Section::Stages(part)
            | Section::Changes(part)
            | Section::Outcomes(part)
            | Section::Goal(part) => part,
        }
    }
}

// The section at the front of the bytes, where its table has some room, or the first rule that it breaks.
fn check_part(name: SectionName, room: usize, bytes: &[u8]) -> Result<(), Refusal>
    ensures { result_err result ≡ first_broken (layout_rules name room bytes.now) }
{
    if bytes.len() < 2 {
        return Err(Refusal::FileEnds);
    }
    let count = usize::from(word(bytes, 0));
    check_count(name, room, count)?;
    if bytes.len() < 2 + name.size() * count {
        return Err(Refusal::FileEnds);
    }
    Ok(())
}

// Cuts a section off the front of the bytes: its count, then its records.
pub(crate) fn cut<'a>(
    name: SectionName,
    rooms: &Counts,
    bytes: &'a [u8],
) -> Result<(Section<'a>, &'a [u8]), Fault>
    ensures { MatchResult result
        (λ x. Cut name rooms.now bytes.now x.0 x.1.now)
        (λ f. part_fault name rooms.now bytes.now ≡ Some f) }
{
    placed(
        check_part(name, rooms.of(name), bytes),
        Where::Section(name),
    )?;
    let size = name.size() * usize::from(word(bytes, 0));
    let (part, rest) = bytes[2..].split_at(size);
    Ok((Section::new(name, part), rest))
}
