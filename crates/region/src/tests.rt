use crate::Region;
use crate::value::TimerValue;
use rows::refusal::Refusal;
use rows::tables::TimerRow;
use std::test::Fail;

const ROOMY: [TimerRow; 16] = [TimerRow { ceiling: 65535 }; 16];

// From zero, one step and a reset of the second timer.
#[test]
fn two_timers(rt: HostRuntime) -> Result<(), Fail> {
    let mut r = Region::opening(2);
    r.wait(1, &ROOMY)?;
    r.reset(2)?;
    assert!(rt; r.is_whole());
    assert_eq!(rt; r.classes(), 2);
    assert_eq!(rt;
        r.timer(0),
        Some(TimerValue {
            seconds: 0,
            rank: 1,
        })
    );
    assert_eq!(rt;
        r.timer(1),
        Some(TimerValue {
            seconds: 0,
            rank: 0,
        })
    );
    assert_eq!(rt; r.count(0), Some(2));
    assert_eq!(rt; r.timer(2), None);
    Ok(())
}

// A step and a reset for each further timer give every timer a class of its own.
#[test]
fn sixteen_classes(rt: HostRuntime) -> Result<(), Fail> {
    let mut r = Region::opening(16);
    for timer in 1..16u16 {
        r.wait(1, &ROOMY)?;
        r.reset(1 << timer)?;
    }
    assert_eq!(rt; r.classes(), 16);
    assert_eq!(rt; r.steps_per_second(), 32);
    assert_eq!(rt;
        r.timer(0),
        Some(TimerValue {
            seconds: 0,
            rank: 15,
        })
    );
    r.wait(32, &ROOMY)?;
    assert_eq!(rt;
        r.timer(15),
        Some(TimerValue {
            seconds: 1,
            rank: 0,
        })
    );
    r.reset(0xfff8)?;
    assert_eq!(rt; r.classes(), 4);
    assert_eq!(rt;
        r.timer(0),
        Some(TimerValue {
            seconds: 1,
            rank: 3,
        })
    );
    assert_eq!(rt;
        r.timer(2),
        Some(TimerValue {
            seconds: 1,
            rank: 1,
        })
    );
    Ok(())
}

// Waits of nothing, of a second, to the ceiling and a step past it, and of all the seconds that a ceiling can allow.
#[test]
fn waits(rt: HostRuntime) -> Result<(), Fail> {
    let ceilings = [TimerRow { ceiling: 65535 }, TimerRow { ceiling: 2 }];
    let start = Region::opening(2);
    for (steps, seconds) in [(0, 0), (2, 1), (4, 2)] {
        let mut r = start;
        r.wait(steps, &ceilings)?;
        assert_eq!(rt; r.timer(1), Some(TimerValue { seconds, rank: 0 }));
    }
    let mut r = start;
    assert_eq!(rt; r.wait(5, &ceilings), Err(Refusal::WaitOutsideHold));
    assert_eq!(rt; r, start);
    let mut one = Region::opening(1);
    one.wait(131070, &ceilings)?;
    assert_eq!(rt;
        one.timer(0),
        Some(TimerValue {
            seconds: 65535,
            rank: 0,
        })
    );
    assert_eq!(rt; one.wait(1, &ceilings), Err(Refusal::WaitOutsideHold));
    assert_eq!(rt; one.wait(u32::MAX, &[]), Err(Refusal::WaitOutsideHold));
    Ok(())
}

// A reset that names a missing timer, and one that names none.
#[test]
fn resets(rt: HostRuntime) -> Result<(), Fail> {
    let mut r = Region::opening(2);
    r.wait(1, &ROOMY)?;
    let before = r;
    assert_eq!(rt; r.reset(4), Err(Refusal::NotThere));
    assert_eq!(rt; r.reset(0), Ok(()));
    assert_eq!(rt; r, before);
    Ok(())
}
