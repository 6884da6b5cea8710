// Shares and half-widths in percent, and lists that name an identifier twice.
use crate::identifiers::listed_twice;
use crate::repeats::first_repeat;
use crate::shares::{HalfWidth, Share};
use std::test::Fail;

#[test]
fn shares_of_runs(rt: HostRuntime) -> Result<(), Fail> {
    let cases = [
        (0, 1000, "0.0%"),
        (487, 1000, "48.7%"),
        (1, 3, "33.3%"),
        (2, 3, "66.7%"),
        (1, 2000, "0.1%"),
        (1, 2001, "0.0%"),
        (1000, 1000, "100.0%"),
        (4294967295, 4294967295, "100.0%"),
        (7, 5, "100.0%"),
        (0, 0, "0.0%"),
        (7, 0, "0.0%"),
    ];
    for (reached, runs, shown) in cases {
        let text = format!(in rt.alloc(); "{}", Share::of(reached, runs))?;
        assert_eq!(rt; text.as_str(), shown);
    }
    Ok(())
}

#[test]
fn half_widths_of_runs(rt: HostRuntime) -> Result<(), Fail> {
    let cases = [
        (0, "±100.0%"),
        (1, "±100.0%"),
        (2, "±96.1%"),
        (100, "±13.6%"),
        (1000, "±4.3%"),
        (10000, "±1.4%"),
        (4294967295, "±0.1%"),
    ];
    for (runs, shown) in cases {
        let text = format!(in rt.alloc(); "{}", HalfWidth::of(runs))?;
        assert_eq!(rt; text.as_str(), shown);
    }
    Ok(())
}

#[test]
fn shares_stand_at_the_right(rt: HostRuntime) -> Result<(), Fail> {
    let share = Share::of(1, 3);
    let half_width = HalfWidth::of(1000);
    let text = format!(in rt.alloc(); "{share:>8}|{half_width:>8}|{share:>2}|{half_width:>2}|")?;
    assert_eq!(rt; text.as_str(), "   33.3%|   ±4.3%|33.3%|±4.3%|");
    Ok(())
}

#[test]
fn identifiers_listed_twice(rt: HostRuntime) -> Result<(), Fail> {
    assert_eq!(rt; listed_twice(&[]), None);
    assert_eq!(rt; listed_twice(&[3, 5, 8]), None);
    assert_eq!(rt; listed_twice(&[3, 5, 5, 3]), Some(5));
    assert_eq!(rt; listed_twice(&[3, 5, 8, 3]), Some(3));
    Ok(())
}

#[test]
fn first_repeats_of_lists(rt: HostRuntime) -> Result<(), Fail> {
    assert_eq!(rt; first_repeat(rt.alloc(), &[]), None);
    assert_eq!(rt; first_repeat(rt.alloc(), &[7]), None);
    assert_eq!(rt; first_repeat(rt.alloc(), &[8, 3, 5, 4294967295, 0]), None);
    assert_eq!(rt; first_repeat(rt.alloc(), &[3, 5, 5, 3]), Some(5));
    assert_eq!(rt; first_repeat(rt.alloc(), &[3, 5, 8, 3]), Some(3));
    assert_eq!(rt; first_repeat(rt.alloc(), &[9, 1, 9, 1, 9]), Some(9));
    assert_eq!(rt; first_repeat(rt.alloc(), &[0, 0]), Some(0));
    Ok(())
}

#[test]
fn a_repeat_at_the_end_of_a_long_list(rt: HostRuntime) -> Result<(), Fail> {
    let mut identifiers: Vec<u32> = (4294966296..=4294967295).rev().collect(rt.alloc())?;
    assert_eq!(rt; identifiers.len(), 1000);
    assert_eq!(rt; first_repeat(rt.alloc(), &identifiers), None);
    identifiers.push(4294967295)?;
    assert_eq!(rt; first_repeat(rt.alloc(), &identifiers), Some(4294967295));
    Ok(())
}
