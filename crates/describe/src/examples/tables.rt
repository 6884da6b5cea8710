// How batches are shown in tables and as comma-separated values.
use crate::csv_rows::csv_text;
use crate::losses::{Beside, Named, needs_warning};
use crate::tables::BatchTable;
use batch::BatchRow;
use std::test::Fail;

const HEADINGS: &str = "identifier reached failed stuck unfinished  share half-width\n";

const HALF_WIDTH: &str = "half-width: for one scheduler with well-mixed draws, 95 % by \
    Hoeffding's bound; the best or worst of many tried needs more runs to be as sure\n";

const MEANING: &str = "stuck: no change was possible any more; unfinished: the steps, the \
    allowance or the draws were used up; neither counts as reached\n";

fn row(identifier: u32, reached: u32, stuck: u32, unfinished: u32) -> BatchRow {
    BatchRow {
        identifier,
        reached,
        failed: 1000u32.saturating_sub(reached),
        stuck,
        unfinished,
    }
}

fn beside(name: Named, reached: u32, stuck: u32, unfinished: u32) -> Beside {
    Beside {
        name,
        tally: row(0, reached, stuck, unfinished).tally(),
    }
}

#[test]
fn a_table_of_sampled_schedulers(rt: HostRuntime) -> Result<(), Fail> {
    let rows = [
        row(0, 487, 0, 0),
        row(3, 521, 10, 0),
        row(12, 450, 3, 7),
        row(13, 450, 0, 0),
    ];
    let table = BatchTable {
        rows: &rows,
        beside: &[],
        runs: 1000,
    };
    let text = format!(in rt.alloc(); "{}", table)?;
    let expected = format!(in rt.alloc();
        "{}{}{}{}",
        HEADINGS,
        "         0     487    513     0          0  48.7%      ±4.3%\n         3     521    479    10          0  52.1%      ±4.3%\n        12     450    550     3          7  45.0%      ±4.3%\n        13     450    550     0          0  45.0%      ±4.3%\n",
        "best of those tried: scheduler 3 with 52.1% (521 of 1000 runs)\nworst of those tried: scheduler 12 with 45.0% (450 of 1000 runs)\n",
        HALF_WIDTH
    )?;
    assert_eq!(rt; text.as_str(), expected.as_str());
    Ok(())
}

#[test]
fn a_table_with_others_beside_and_a_warning(rt: HostRuntime) -> Result<(), Fail> {
    let rows = [row(4, 340, 600, 60), row(4294967295, 1000, 0, 0)];
    let others = [
        beside(Named::Earliest, 612, 11, 0),
        beside(Named::Latest, 340, 0, 660),
    ];
    let table = BatchTable {
        rows: &rows,
        beside: &others,
        runs: 1000,
    };
    let text = format!(in rt.alloc(); "{}", table)?;
    let expected = format!(in rt.alloc();
        "{}{}{}{}{}{}",
        HEADINGS,
        "         4     340    660   600         60  34.0%      ±4.3%\n4294967295    1000      0     0          0 100.0%      ±4.3%\n  earliest     612    388    11          0  61.2%      ±4.3%\n    latest     340    660     0        660  34.0%      ±4.3%\n",
        "best of those tried, the sampled ones: scheduler 4294967295 with 100.0% (1000 of 1000 runs)\nworst of those tried, the sampled ones: scheduler 4 with 34.0% (340 of 1000 runs)\n",
        HALF_WIDTH,
        "warning: with 3 of 4 schedulers more than 1% of the runs are stuck or unfinished, most with scheduler 4: 66.0%; ",
        MEANING
    )?;
    assert_eq!(rt; text.as_str(), expected.as_str());
    Ok(())
}

#[test]
fn one_scheduler_with_one_run(rt: HostRuntime) -> Result<(), Fail> {
    let rows = [BatchRow {
        identifier: 7,
        reached: 0,
        failed: 0,
        stuck: 1,
        unfinished: 0,
    }];
    let table = BatchTable {
        rows: &rows,
        beside: &[],
        runs: 1,
    };
    let text = format!(in rt.alloc(); "{}", table)?;
    let expected = format!(in rt.alloc();
        "{}{}{}{}{}{}",
        HEADINGS,
        "         7       0      0     1          0   0.0%    ±100.0%\n",
        "best of those tried: scheduler 7 with 0.0% (0 of 1 run)\nworst of those tried: scheduler 7 with 0.0% (0 of 1 run)\n",
        HALF_WIDTH,
        "warning: with 1 of 1 scheduler more than 1% of the runs are stuck or unfinished, most with scheduler 7: 100.0%; ",
        MEANING
    )?;
    assert_eq!(rt; text.as_str(), expected.as_str());
    Ok(())
}

#[test]
fn others_alone_have_no_best_of_those_tried(rt: HostRuntime) -> Result<(), Fail> {
    let others = [
        beside(Named::Latest, 340, 0, 0),
        beside(Named::Earliest, 0, 5, 6),
    ];
    let table = BatchTable {
        rows: &[],
        beside: &others,
        runs: 1000,
    };
    let text = format!(in rt.alloc(); "{}", table)?;
    let expected = format!(in rt.alloc();
        "{}{}{}{}{}",
        HEADINGS,
        "    latest     340    660     0          0  34.0%      ±4.3%\n  earliest       0   1000     5          6   0.0%      ±4.3%\n",
        HALF_WIDTH,
        "warning: with 1 of 2 schedulers more than 1% of the runs are stuck or unfinished, most with earliest: 1.1%; ",
        MEANING
    )?;
    assert_eq!(rt; text.as_str(), expected.as_str());
    Ok(())
}

#[test]
fn more_than_one_in_a_hundred_is_warned_of(rt: HostRuntime) -> Result<(), Fail> {
    assert!(rt; !needs_warning(4, 6, 1000));
    assert!(rt; needs_warning(4, 7, 1000));
    assert!(rt; needs_warning(4294967295, 4294967295, 4294967295));
    assert!(rt; !needs_warning(0, 0, 0));
    Ok(())
}

#[test]
fn rows_as_comma_separated_values(rt: HostRuntime) -> Result<(), Fail> {
    let rows = [row(0, 487, 0, 0), row(3, 1000, 10, 0)];
    let text = csv_text(rt.alloc(), &rows, 1000)?;
    assert_eq!(rt;
        text.as_slice(),
        b"identifier,reached,failed,stuck,unfinished,share_percent,half_width_percent\n0,487,513,0,0,48.7,4.3\n3,1000,0,10,0,100.0,4.3\n".as_slice()
    );
    let none = csv_text(rt.alloc(), &[], 1)?;
    assert_eq!(rt;
        none.as_slice(),
        b"identifier,reached,failed,stuck,unfinished,share_percent,half_width_percent\n".as_slice()
    );
    Ok(())
}
