// Counts at their limits and one past them, and tables that are one row too small.
use crate::examples::files::{Answered, EXAMPLE, EXAMPLE_COUNTS};
use reader::owned::OwnedTables;
use rows::fault::Where;
use rows::refusal::Refusal;
use rows::section::{Counts, SectionName};
use std::alloc::{AllocError, Global};
use std::test::Fail;

// Reads the example up to a section's count, with that count, into tables of some room.
fn read_count(heap: Global, n: Counts, at: usize, count: u16) -> Result<Answered, AllocError> {
    let mut bytes = EXAMPLE;
    let at = at.min(EXAMPLE.len() - 2);
    bytes[at..at + 2].copy_from_slice(&count.to_be_bytes());
    let tables = OwnedTables::of(heap, n)?;
    Ok(Answered::of(tables, &bytes[..at + 2]))
}

#[test]
fn a_count_at_its_limit_goes_on_to_the_records(rt: HostRuntime) -> Result<(), Fail> {
    let cases = [
        (SectionName::Timers, 0usize, 1u16, 16u16),
        (SectionName::Comparisons, 6, 1, 4096),
        (SectionName::Stages, 38, 1, 256),
        (SectionName::Changes, 60, 1, 1024),
        (SectionName::Outcomes, 78, 1, 4096),
        (SectionName::Goal, 98, 1, 1),
    ];
    let largest = Counts::largest();
    for (name, at, least, most) in cases {
        let ends = Answered::refused(Refusal::FileEnds, Where::Section(name));
        let off = Answered::refused(Refusal::CountOffLimits, Where::Section(name));
        assert_eq!(rt; read_count(rt.alloc(), largest, at, least)?, ends);
        assert_eq!(rt; read_count(rt.alloc(), largest, at, most)?, ends);
        assert_eq!(rt;
            read_count(rt.alloc(), largest, at, most.saturating_add(1))?,
            off
        );
    }
    Ok(())
}

#[test]
fn a_table_one_row_too_small_is_refused(rt: HostRuntime) -> Result<(), Fail> {
    let full = EXAMPLE_COUNTS;
    let cases = [
        (Counts { timers: 1, ..full }, SectionName::Timers),
        (
            Counts {
                comparisons: 4,
                ..full
            },
            SectionName::Comparisons,
        ),
        (Counts { stages: 1, ..full }, SectionName::Stages),
        (Counts { changes: 1, ..full }, SectionName::Changes),
        (
            Counts {
                outcomes: 2,
                ..full
            },
            SectionName::Outcomes,
        ),
        (Counts { goals: 0, ..full }, SectionName::Goal),
    ];
    for (room, name) in cases {
        let small = Answered::refused(Refusal::TableTooSmall, Where::Section(name));
        assert_eq!(rt; read_count(rt.alloc(), room, 98, 1)?, small);
    }
    Ok(())
}
