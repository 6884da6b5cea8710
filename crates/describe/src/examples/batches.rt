// How batches are shown, and which words name identifiers.
use crate::batches::ShownBatch;
use crate::identifiers::identifiers;
use batch::BatchRow;
use std::test::Fail;

fn row(identifier: u32, reached: u32) -> BatchRow {
    BatchRow {
        identifier,
        reached,
        failed: 1,
        stuck: 0,
        unfinished: 2,
    }
}

#[test]
fn a_batch_is_shown_with_its_best_and_worst_row(rt: HostRuntime) -> Result<(), Fail> {
    let rows = [row(3, 7), row(5, 9), row(8, 9), row(9, 7)];
    let shown = ShownBatch {
        rows: &rows,
        runs: 12,
    };
    let text = format!(in rt.alloc(); "{}", shown)?;
    assert!(rt;
        text.as_str()
            == "identifier reached failed stuck unfinished\n3 7 1 0 2\n5 9 1 0 2\n8 9 1 0 2\n9 7 1 0 2\nmost reached: 5 9 of 12\nfewest reached: 3 7 of 12\n"
    );
    Ok(())
}

#[test]
fn words_that_name_identifiers(rt: HostRuntime) -> Result<(), Fail> {
    let cases = [
        ("0..9", Some(10)),
        ("7..7", Some(1)),
        ("4294967295..4294967295", Some(1)),
        ("0..999", Some(1000)),
        ("3,5,8", Some(3)),
        ("4", Some(1)),
        ("0..1000", None),
        ("9..0", None),
        ("", None),
        ("3,,5", None),
        ("1.5", None),
        ("1..2..3", None),
    ];
    for (word, n) in cases {
        let count = identifiers(rt.alloc(), word)?.map(|list| list.len());
        assert_eq!(rt; count, n);
    }
    Ok(())
}
