// What files plainly are that are no plans.
use crate::examples::files::EXAMPLE;
use crate::kinds::{NoPlan, plainly_no_plan};
use std::test::Fail;

#[test]
fn files_that_are_plainly_no_plans(rt: HostRuntime) -> Result<(), Fail> {
    let cases: [(&[u8], Option<NoPlan>); 10] = [
        (b"", Some(NoPlan::Empty)),
        (b"a", Some(NoPlan::Text)),
        (
            b"timers:\r\n\t2\x0c\n and more than twenty-eight bytes",
            Some(NoPlan::Text),
        ),
        (b"gr\xc3\xbcn", Some(NoPlan::Text)),
        (b"gr\xfcn", Some(NoPlan::TooShort(4))),
        (b"a\x00b", Some(NoPlan::TooShort(3))),
        (b"a\x7fb\xc2\x85", Some(NoPlan::TooShort(5))),
        (&EXAMPLE[0..27], Some(NoPlan::TooShort(27))),
        (&EXAMPLE[0..28], None),
        (&EXAMPLE[0..104], None),
    ];
    for (bytes, kind) in cases {
        assert_eq!(rt; plainly_no_plan(bytes), kind);
    }
    Ok(())
}

#[test]
fn kinds_in_words(rt: HostRuntime) -> Result<(), Fail> {
    let cases = [
        (NoPlan::Empty, "it is empty"),
        (
            NoPlan::TooShort(1),
            "it has 1 byte, and the shortest plan has 28",
        ),
        (
            NoPlan::TooShort(5),
            "it has 5 bytes, and the shortest plan has 28",
        ),
        (NoPlan::Text, "it holds text"),
    ];
    for (kind, shown) in cases {
        let text = format!(in rt.alloc(); "{}", kind)?;
        assert_eq!(rt; text.as_str(), shown);
    }
    Ok(())
}
