// The options of the commands that run a plan.
ghost use Rattle.std.specs.Prelude.{◌≡◌, ℕ, ◌≤◌, IfOk, IsSomeAnd, OnErr, codes};
ghost use Rattle.std.specs.Option.{unwrap_or};
ghost use Rattle.std.specs.Result.{result_ok};
ghost use Rattle.describe.specs.Identifiers.{AllDiffer, Lists};
ghost use Rattle.describe.specs.Names.{Names};
ghost use Rattle.describe.specs.Words.{Writes};
ghost use Rattle.schedulers.specs.declared.chooser.Chooser.{Chooser};
ghost use Rattle.commands.specs.Options.{DrawsFor, GoesBy, LimitsFor, ListFor, NumberFor};
ghost use Rattle.commands.specs.Options.{NumberOr, RuleFor, SchedulerFor, draws_asked, said};

use crate::command::Command;
use crate::failure::Failure;
use crate::sources::{Draws, Rule};
use anyhow::{Context, anyhow};
use batch::{LARGEST, Limits, MOST_IDENTIFIERS};
use clap::ArgMatches;
use describe::calls::named_scheduler;
use describe::identifiers::identifiers;
use describe::numbers::number;
use describe::repeats::first_repeat;
use draws::tape::LONGEST_ROW;
use schedulers::chooser::Chooser;
use std::alloc::Global;

// What a command goes by.
#[derive(Drop)]
pub struct Options {
    pub draws: Draws<String>,
    pub row: u32,
    pub scheduler: Chooser,
    pub identifiers: Vec<u32>,
    pub limits: Limits,
}

// The name of a file that a command has to be given.
pub fn file_of<'a>(given: &ArgMatches<'a>, name: &str) -> &'a str
    ensures { result.now ≡ unwrap_or (said given.now name.now) (codes "") }
{
    given.get_str(name).unwrap_or("")
}

// A number within limits, if the option is given.
fn number_of(
    given: &ArgMatches<'_>,
    name: &str,
    least: u32,
    most: u32,
) -> anyhow::Result<Option<u32>>
    ensures read { IfOk result (NumberFor least most (said given.now name.now)) }
    ensures refused { OnErr result (IsSomeAnd (said given.now name.now)
        (λ word. (n : ℕ) → Writes word n → least ≤ n → n ≤ most → ⊥)) }
{
    let Some(word) = given.get_str(name) else {
        return Ok(None);
    };
    match number(word).filter(|n| (least..=most).contains(n)) {
        Some(n) => Ok(Some(n)),
        None => Err(anyhow!("--{name} takes a number from {least} to {most}, not '{word}'")),
    }
}

// A number within limits, or the usual one where the option is not given.
fn number_or(
    usual: u32,
    given: &ArgMatches<'_>,
    name: &str,
    least: u32,
    most: u32,
) -> anyhow::Result<u32>
    ensures { IfOk result (NumberOr usual least most (said given.now name.now)) }
{
    Ok(number_of(given, name, least, most)?.unwrap_or(usual))
}

// The scheduler that is asked for, or the earliest.
fn scheduler_of(given: &ArgMatches<'_>) -> anyhow::Result<Chooser>
    ensures read { IfOk result (SchedulerFor (said given.now (codes "scheduler"))) }
    ensures refused { OnErr result (IsSomeAnd (said given.now (codes "scheduler"))
        (λ word. (s : Chooser) → Names word s → ⊥)) }
{
    match given.get_str("scheduler") {
        None => Ok(Chooser::Earliest),
        Some(word) => named_scheduler(word).context(format_args!(
            "--scheduler takes earliest, latest or an identifier, not '{word}'"
        )),
    }
}

// The identifiers that a word lists, none of them twice.
fn listed_once(heap: Global, word: &str) -> Result<Vec<u32>, Failure>
    ensures { IfOk result (λ ids. Lists word.now ids.items × AllDiffer ids.items) }
{
    let Some(identifiers) = identifiers(heap, word)? else {
        return Err(Failure::Words(anyhow!(
            "--identifiers takes FIRST..LAST or a list as 3,5,8, at most {} of them, not '{word}'",
            MOST_IDENTIFIERS
        )));
    };
    match first_repeat(heap, &identifiers) {
        Some(twice) => Err(Failure::Words(anyhow!("--identifiers lists {twice} twice: '{word}'"))),
        None => Ok(identifiers),
    }
}

// The identifiers that are listed, or the first ten.
fn identifiers_of(heap: Global, given: &ArgMatches<'_>) -> Result<Vec<u32>, Failure>
    ensures { IfOk result (λ ids. ListFor (said given.now (codes "identifiers")) ids.items) }
{
    match given.get_str("identifiers") {
        None => Ok((0..10).collect(heap)?),
        Some(word) => listed_once(heap, word),
    }
}

// The rule by which draws are computed, if one is given.
fn rule_of(given: &ArgMatches<'_>) -> anyhow::Result<Option<Rule>>
    ensures read { IfOk result (RuleFor (said given.now (codes "source"))) }
    ensures refused { OnErr result (IsSomeAnd (said given.now (codes "source"))
        (λ word. (word ≡ codes "mixed" → ⊥) × (word ≡ codes "computed" → ⊥))) }
{
    match given.get_str("source") {
        None => Ok(None),
        Some("mixed") => Ok(Some(Rule::Mixed)),
        Some("computed") => Ok(Some(Rule::Computed)),
        Some(word) => Err(anyhow!("--source takes mixed or computed, not '{word}'")),
    }
}

// Where the draws come from.
fn draws(
    rule: Option<Rule>,
    seed: Option<u32>,
    tape: Option<String>,
    row_length: Option<u32>,
) -> anyhow::Result<Draws<String>>
    ensures { result_ok result ≡ draws_asked rule seed tape row_length }
{
    match (rule, seed, tape, row_length) {
        (_, Some(_), Some(_), _) => Err(anyhow!("--seed and --tape do not go together")),
        (Some(_), _, Some(_), _) => Err(anyhow!("--source and --tape do not go together")),
        (_, _, None, Some(_)) => Err(anyhow!("--row-length goes with --tape")),
        (rule, seed, None, None) => Ok(Draws::Seed {
            rule: rule.unwrap_or(Rule::Mixed),
            seed: seed.unwrap_or(0),
        }),
        (None, None, Some(path), length) => Ok(Draws::Tape {
            numbers: path,
            row_length: length.unwrap_or(LONGEST_ROW) as usize,
        }),
    }
}

// The draws that are asked for.
fn draws_of(heap: Global, given: &ArgMatches<'_>) -> Result<Draws<String>, Failure>
    ensures { IfOk result (DrawsFor given.now) }
{
    let tape = match given.get_str("tape") {
        None => None,
        Some(path) => Some(String::from_str(heap, path)?),
    };
    let seed = number_of(given, "seed", 0, u32::MAX).map_err(Failure::Words)?;
    let row_length = number_of(given, "row-length", 1, LONGEST_ROW).map_err(Failure::Words)?;
    let rule = rule_of(given).map_err(Failure::Words)?;
    draws(rule, seed, tape, row_length).map_err(Failure::Words)
}

// The limits of runs.
fn limits_of(command: Command, given: &ArgMatches<'_>) -> anyhow::Result<Limits>
    ensures { IfOk result (LimitsFor given.now command) }
{
    let Limits {
        runs,
        steps,
        allowance,
    } = LARGEST;
    Ok(Limits {
        runs: number_or(1_000, given, "runs", 1, runs)?,
        steps: number_or(command.steps(), given, "steps", 1, steps)?,
        allowance: number_or(allowance, given, "allowance", 1, allowance)?,
    })
}

impl Options {
    // What a command goes by, from the options that it is given.
    pub fn of(heap: Global, command: Command, given: &ArgMatches<'_>) -> Result<Options, Failure>
        ensures { IfOk result (GoesBy given.now command) }
    {
        Ok(Options {
            draws: draws_of(heap, given)?,
            row: number_or(0, given, "row", 0, u32::MAX).map_err(Failure::Words)?,
            scheduler: scheduler_of(given).map_err(Failure::Words)?,
            identifiers: identifiers_of(heap, given)?,
            limits: limits_of(command, given).map_err(Failure::Words)?,
        })
    }
}
