// How regions and refusals are shown.
use crate::faults::{Refused, RefusedReset};
use crate::plan_warning::ShownWarning;
use crate::regions::{Intervals, ShownRegion};
use region::Region;
use rows::fault::{Fault, Where};
use rows::refusal::Refusal;
use rows::section::SectionName;
use rows::tables::TimerRow;
use std::test::Fail;
use warnings::Warning;

const CEILINGS: [TimerRow; 3] = [TimerRow { ceiling: 60 }; 3];

#[test]
fn regions_are_shown_with_their_fractions(rt: HostRuntime) -> Result<(), Fail> {
    let mut r = Region::opening(3);
    r.wait(1, &CEILINGS)?;
    r.reset(2)?;
    r.wait(1, &CEILINGS)?;
    r.reset(4)?;
    r.wait(1, &CEILINGS)?;
    assert!(rt; format!(in rt.alloc(); "{}", ShownRegion(&r))?.as_str() == "between 3 0.2 0.1 0.0");
    let text = format!(in rt.alloc(); "{}", Intervals(&r))?;
    assert!(rt; text.as_str() == "x0 in 0..1, x1 in 0..1, x2 in 0..1; fractions x2 < x1 < x0");
    Ok(())
}

#[test]
fn refusals_are_told_with_their_place(rt: HostRuntime) -> Result<(), Fail> {
    let fault = Fault {
        refusal: Refusal::NotThere,
        at: Where::Record(SectionName::Stages, 2),
    };
    let text = format!(in rt.alloc(); "{}", Refused(fault))?;
    assert!(rt; text.as_str() == "refused 4: a record names what is not there (stages, record 2)");
    Ok(())
}

#[test]
fn a_refused_reset_says_that_a_timer_is_not_there(rt: HostRuntime) -> Result<(), Fail> {
    let not_there = format!(in rt.alloc(); "{}", RefusedReset(Refusal::NotThere))?;
    assert_eq!(rt;
        not_there.as_str(),
        "refused 4: the reset names a timer that is not there"
    );
    let other = format!(in rt.alloc(); "{}", RefusedReset(Refusal::WaitOutsideHold))?;
    assert_eq!(rt;
        other.as_str(),
        "refused 10: the wait leaves the hold interval or passes a ceiling"
    );
    Ok(())
}

#[test]
fn warnings_name_the_stage_and_the_timer(rt: HostRuntime) -> Result<(), Fail> {
    let timers = [TimerRow { ceiling: 90 }, TimerRow { ceiling: 60 }];
    let warning = Warning::CeilingMayEndHold { stage: 3, timer: 1 };
    let ceiling = format!(in rt.alloc();
        "{}",
        ShownWarning {
            warning,
            timers: &timers
        }
    )?;
    assert_eq!(rt;
        ceiling.as_str(),
        "warning: stage 3: the ceiling of x1, 60 s, may end the hold interval before the hold \
        does, and runs may be stuck there"
    );
    let warning = Warning::NoWayOut { stage: 12 };
    let dead = format!(in rt.alloc();
        "{}",
        ShownWarning {
            warning,
            timers: &timers
        }
    )?;
    assert_eq!(rt;
        dead.as_str(),
        "warning: stage 12 is no goal, and no change can ever be possible there: every run that \
        comes there is stuck"
    );
    Ok(())
}
