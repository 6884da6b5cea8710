// One file for each refusal, and for each pair of rules that compete.
use crate::examples::files::{Answered, EXAMPLE_COUNTS, read_altered};
use rows::fault::Where;
use rows::refusal::Refusal;
use rows::section::SectionName;
use std::test::Fail;

#[test]
fn the_layout_comes_first(rt: HostRuntime) -> Result<(), Fail> {
    let heap = rt.alloc();
    let read = Answered::granted(EXAMPLE_COUNTS);
    assert_eq!(rt; read_altered(heap, 104, &[])?, read);
    let timers = Where::Section(SectionName::Timers);
    let goal = Where::Section(SectionName::Goal);
    // the length of the file, the bytes altered, and the rule that breaks
    let cases: [(usize, &[(usize, u8)], Refusal, Where); 7] = [
        (1, &[], Refusal::FileEnds, timers),
        (5, &[], Refusal::FileEnds, timers),
        (103, &[], Refusal::FileEnds, goal),
        // a count off its limits wins over a table too small and over the end of the file
        (2, &[(1, 17)], Refusal::CountOffLimits, timers),
        (2, &[(1, 0)], Refusal::CountOffLimits, timers),
        // a table too small wins over the end of the file
        (2, &[(1, 3)], Refusal::TableTooSmall, timers),
        // bytes behind the last section win over the records
        (105, &[(3, 0)], Refusal::BytesFollow, Where::File),
    ];
    for (len, edits, refusal, at) in cases {
        assert_eq!(rt;
            read_altered(heap, len, edits)?,
            Answered::refused(refusal, at)
        );
    }
    Ok(())
}

#[test]
fn records_break_their_rules_in_order(rt: HostRuntime) -> Result<(), Fail> {
    let heap = rt.alloc();
    let timer = Where::Record(SectionName::Timers, 1);
    let comparison = Where::Record(SectionName::Comparisons, 0);
    let stage = Where::Record(SectionName::Stages, 0);
    let cases: [(&[(usize, u8)], Refusal, Where); 11] = [
        (&[(5, 0), (8, 8)], Refusal::BadField, timer),
        (&[(8, 8), (9, 2)], Refusal::BadField, comparison),
        (&[(10, 1)], Refusal::BadField, comparison),
        (&[(11, 1)], Refusal::BadField, comparison),
        (&[(9, 2), (14, 8)], Refusal::NotThere, comparison),
        (&[(8, 4), (10, 2)], Refusal::NotThere, comparison),
        (&[(41, 4), (45, 33), (42, 255)], Refusal::BadField, stage),
        (&[(45, 33), (42, 255)], Refusal::CountOffLimits, stage),
        (&[(49, 129)], Refusal::CountOffLimits, stage),
        (&[(43, 5)], Refusal::NotThere, stage),
        (&[(47, 2)], Refusal::NotThere, stage),
    ];
    for (edits, refusal, at) in cases {
        assert_eq!(rt;
            read_altered(heap, 104, edits)?,
            Answered::refused(refusal, at)
        );
    }
    Ok(())
}

#[test]
fn changes_and_outcomes_break_their_rules_in_order(rt: HostRuntime) -> Result<(), Fail> {
    let heap = rt.alloc();
    let change = Where::Record(SectionName::Changes, 0);
    let first_outcome = Where::Record(SectionName::Outcomes, 0);
    let outcome = Where::Record(SectionName::Outcomes, 1);
    let goal = Where::Record(SectionName::Goal, 0);
    let cases: [(&[(usize, u8)], Refusal, Where); 10] = [
        (&[(65, 33)], Refusal::CountOffLimits, change),
        (&[(69, 0)], Refusal::CountOffLimits, change),
        (&[(69, 65)], Refusal::CountOffLimits, change),
        (&[(69, 4), (80, 255)], Refusal::NotThere, change),
        // the sum of the weights is the change's fault, a weight of 0 the outcome's
        (&[(80, 255), (81, 255), (93, 0)], Refusal::BadWeight, change),
        (&[(81, 0)], Refusal::BadWeight, first_outcome),
        (&[(87, 0), (89, 2)], Refusal::NotThere, outcome),
        (&[(91, 4)], Refusal::NotThere, outcome),
        (&[(103, 33), (101, 9)], Refusal::CountOffLimits, goal),
        (&[(101, 5)], Refusal::NotThere, goal),
    ];
    for (edits, refusal, at) in cases {
        assert_eq!(rt;
            read_altered(heap, 104, edits)?,
            Answered::refused(refusal, at)
        );
    }
    // an empty list names nothing, and the weights may sum to 65,535
    let read = Answered::granted(EXAMPLE_COUNTS);
    assert_eq!(rt; read_altered(heap, 104, &[(103, 0), (101, 255)])?, read);
    assert_eq!(rt; read_altered(heap, 104, &[(80, 255), (81, 254)])?, read);
    Ok(())
}
