// The rules that every record of a plan has to meet.
ghost use Rattle.std.specs.Prelude.{◌≡◌, ◌+◌, ◌<◌, ◌≤◌, length};
ghost use Rattle.std.specs.Result.{result_err};
ghost use Rattle.rows.specs.Plans.{counts_of};
ghost use Rattle.rows.specs.Sections.{count_of};
ghost use Rattle.rows.specs.Sound.{weights_of};
ghost use Rattle.rows.specs.Verdicts.{change_rules, comparison_rules, first_broken, goal_rules, missing, outcome_rules, record_rules, rows_fault, section_fault, stage_rules, timer_rules};

use crate::records::Records;
use rows::fault::{Fault, Where, placed};
use rows::refusal::Refusal;
use rows::section::{Counts, SECTIONS, SectionName};
use rows::tables::{
    ChangeRow, ComparisonRow, GoalRow, MOST_CHANGES, MOST_COMPARISONS, MOST_OUTCOMES, OutcomeRow,
    StageRow, TimerRow, names_past,
};

// Whether a list of n rows from `first` on passes the end of its section. An empty one names nothing.
fn is_missing(first: u16, n: u16, count: usize) -> bool
    ensures { result ≡ missing first n count }
{
    n > 0 && usize::from(first) + usize::from(n) > count
}

fn check_timer(t: TimerRow) -> Result<(), Refusal>
    ensures { result_err result ≡ first_broken (timer_rules t) }
{
    if t.ceiling == 0 {
        return Err(Refusal::BadField);
    }
    Ok(())
}

fn check_comparison(counts: &Counts, c: ComparisonRow) -> Result<(), Refusal>
    ensures { result_err result ≡ first_broken (comparison_rules counts.now c) }
{
    if c.kind > 7 || c.filler != 0 || (c.kind < 4 && c.second != 0) {
        return Err(Refusal::BadField);
    }
    if usize::from(c.first) >= counts.timers {
        return Err(Refusal::NotThere);
    }
    if c.kind >= 4 && usize::from(c.second) >= counts.timers {
        return Err(Refusal::NotThere);
    }
    Ok(())
}

fn check_stage(counts: &Counts, s: StageRow) -> Result<(), Refusal>
    ensures { result_err result ≡ first_broken (stage_rules counts.now s) }
{
    if s.mark > 3 {
        return Err(Refusal::BadField);
    }
    if s.holds > MOST_COMPARISONS || usize::from(s.changes) > MOST_CHANGES {
        return Err(Refusal::CountOffLimits);
    }
    if is_missing(s.first_hold, s.holds, counts.comparisons) {
        return Err(Refusal::NotThere);
    }
    if is_missing(s.first_change, s.changes, counts.changes) {
        return Err(Refusal::NotThere);
    }
    Ok(())
}

fn check_outcome(counts: &Counts, o: OutcomeRow) -> Result<(), Refusal>
    ensures { result_err result ≡ first_broken (outcome_rules counts.now o) }
{
    if usize::from(o.stage) >= counts.stages || names_past(o.resets, counts.timers) {
        return Err(Refusal::NotThere);
    }
    if o.weight == 0 {
        return Err(Refusal::BadWeight);
    }
    Ok(())
}

fn check_goal(counts: &Counts, g: GoalRow) -> Result<(), Refusal>
    ensures { result_err result ≡ first_broken (goal_rules counts.now g) }
{
    if g.comparisons > MOST_COMPARISONS {
        return Err(Refusal::CountOffLimits);
    }
    if is_missing(g.first, g.comparisons, counts.comparisons) {
        return Err(Refusal::NotThere);
    }
    Ok(())
}

// The sum of the weights of a change's outcomes. A source gives a row by its place, so the loop goes over places. Tried: `map` and
// `sum` over them, which left the bound of the sum unproved.
fn weights<R: Records>(rows: &R, c: ChangeRow) -> u32
    requires few { c.outcomes ≤ 64 }
    requires inside { c.first_outcome + c.outcomes ≤ length (R.Records.held rows.now).outcomes }
    ensures { result ≡ weights_of (R.Records.held rows.now) c }
{
    let first = usize::from(c.first_outcome);
    let mut sum: u32 = 0;
    for i in first..first + usize::from(c.outcomes) {
        sum += u32::from(rows.outcome(i).weight);
    }
    sum
}

fn check_change<R: Records>(rows: &R, c: ChangeRow) -> Result<(), Refusal>
    ensures { result_err result ≡ first_broken (change_rules (R.Records.held rows.now) c) }
{
    let counts = rows.counts();
    if c.guards > MOST_COMPARISONS || !(1..=MOST_OUTCOMES).contains(&c.outcomes) {
        return Err(Refusal::CountOffLimits);
    }
    if is_missing(c.first_guard, c.guards, counts.comparisons) {
        return Err(Refusal::NotThere);
    }
    if is_missing(c.first_outcome, c.outcomes, counts.outcomes) {
        return Err(Refusal::NotThere);
    }
    if weights(rows, c) > 65535 {
        return Err(Refusal::BadWeight);
    }
    Ok(())
}

// One record of a section, or the refusal for the first rule that it breaks.
fn check_record<R: Records>(rows: &R, section: SectionName, i: usize) -> Result<(), Refusal>
    requires { i < count_of (counts_of (R.Records.held rows.now)) section }
    ensures { result_err result ≡ first_broken (record_rules (R.Records.held rows.now) section i) }
{
    let counts = rows.counts();
    match section {
        SectionName::Timers => check_timer(rows.timer(i)),
        SectionName::Comparisons => check_comparison(&counts, rows.comparison(i)),
        SectionName::Stages => check_stage(&counts, rows.stage(i)),
        SectionName::Changes => check_change(rows, rows.change(i)),
        SectionName::Outcomes => check_outcome(&counts, rows.outcome(i)),
        SectionName::Goal => check_goal(&counts, rows.goal(i)),
    }
}

// The records of a section, or the first that breaks a rule. The loop goes over their places, which a fault names.
fn check_section<R: Records>(rows: &R, section: SectionName) -> Result<(), Fault>
    ensures { result_err result ≡ section_fault (R.Records.held rows.now) section }
{
    for i in 0..rows.counts().of(section) {
        placed(check_record(rows, section, i), Where::Record(section, i))?;
    }
    Ok(())
}

// The records of the plan, in the order of the file, or the first that breaks a rule.
pub(crate) fn check_rows<R: Records>(rows: &R) -> Result<(), Fault>
    ensures { result_err result ≡ rows_fault (R.Records.held rows.now) }
{
    for section in SECTIONS {
        check_section(rows, section)?;
    }
    Ok(())
}

// The first rule that a record of the plan breaks, in the order of the file, and where it does;
// none where all are met.
pub fn fault_in_rows<R: Records>(rows: &R) -> Option<Fault>
    ensures { result ≡ rows_fault (R.Records.held rows.now) }
{
    check_rows(rows).err()
}
