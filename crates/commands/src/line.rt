// The command line: the commands, their options, and the help on each.
use clap::{Arg, ArgAction, Command};
use std::alloc::{AllocError, Global};

static SOURCES: [&str; 2] = ["mixed", "computed"];

// What the help on all commands ends with.
const EXAMPLES: &str = "examples:
  junction check plans/crossing.plan
  junction batch plans/crossing.plan --identifiers 0..99 --earliest-latest
  junction run plans/crossing.plan --scheduler latest --row 17

A command ends with status 0; 1 where its work failed or a plan is refused; 2 where its words are
wrong. A move or call that is refused is told, and is no failure.";

// What the help on moves ends with.
const MOVES: &str =
    "A MOVE is 'wait STEPS', or 'reset' with timers between commas, as 'reset x0,x2'.
A step is 1/(2k) second in a region with k different fractions. A move that is refused is told, and
the walk goes on from where it was.";

// What the help on calls ends with.
const CALLS: &str = "CALLS has a call a line: 'take CHANGE WAIT', 'step earliest', 'step latest',
'step sampled IDENTIFIER', 'offers' or 'standing'.";

// What the help on batches ends with.
const BATCHES: &str =
    "Run J of each scheduler, from 0, draws from row J of the source, and can be looked at by
'junction run PLAN --scheduler IDENTIFIER --row J --steps 1000' with the same source.
The best and the worst are those of the sampled schedulers tried, and of no other.
The earliest and the latest have an allowance of their own.";

// The plan file of a command.
fn plan<'a>(heap: Global) -> Arg<'a> {
    Arg::new(heap, "PLAN").required(true).help("the plan file")
}

// An option that takes a value.
fn valued<'a>(heap: Global, name: &'a str, value: &'a str, help: &'a str) -> Arg<'a> {
    Arg::new(heap, name)
        .long(name)
        .value_name(value)
        .action(ArgAction::Set)
        .allow_negative_numbers(true)
        .help(help)
}

// An option that takes none.
fn flag<'a>(heap: Global, name: &'a str, help: &'a str) -> Arg<'a> {
    Arg::new(heap, name)
        .long(name)
        .action(ArgAction::SetTrue)
        .help(help)
}

// The options that say where the draws come from.
fn with_draws<'a>(heap: Global, command: Command<'a>) -> Result<Command<'a>, AllocError> {
    let seed = valued(
        heap,
        "seed",
        "N",
        "compute the draws from this seed [default: 0]",
    );
    let source = valued(
        heap,
        "source",
        "RULE",
        "how they are computed: well mixed, or by the congruential rule [default: mixed]",
    )
    .value_parser(SOURCES.as_slice());
    let tape = valued(
        heap,
        "tape",
        "FILE",
        "take the draws from a file of numbers below 2^32",
    )
    .allow_hyphen_values(true)
    .conflicts_with("seed")?
    .conflicts_with("source")?;
    let row_length = valued(
        heap,
        "row-length",
        "N",
        "how many numbers a row of the tape has, 1 to 10000 [default: 10000]",
    );
    command.arg(seed)?.arg(source)?.arg(tape)?.arg(row_length)
}

// The row from which a single run draws.
fn row<'a>(heap: Global) -> Arg<'a> {
    valued(
        heap,
        "row",
        "J",
        "draw from row J of the source, as run J of a batch does [default: 0]",
    )
}

// An option by which numbers alone are printed.
fn plain<'a>(heap: Global) -> Arg<'a> {
    flag(heap, "plain", "print numbers alone, for scripts")
}

// `batch`: many sampled schedulers.
fn batch<'a>(heap: Global) -> Result<Command<'a>, AllocError> {
    let command = Command::new(heap, "batch")
        .about("Runs many sampled schedulers and tells how often each reaches the goal")
        .after_help(BATCHES)
        .arg(plan(heap))?
        .arg(valued(
            heap,
            "identifiers",
            "LIST",
            "the sampled schedulers, FIRST..LAST or as 3,5,8, at most 1000 [default: 0..9]",
        ))?
        .arg(valued(
            heap,
            "runs",
            "N",
            "the runs of each, 1 to 10000 [default: 1000]",
        ))?
        .arg(valued(
            heap,
            "steps",
            "N",
            "the most steps of a run, 1 to 10000 [default: 1000]",
        ))?
        .arg(valued(
            heap,
            "allowance",
            "N",
            "the most steps of all runs together, 1 to 1000000000 [default: 1000000000]",
        ))?
        .arg(flag(
            heap,
            "earliest-latest",
            "show beside them what the earliest and the latest scheduler come to in these runs",
        )
        .conflicts_with("plain")?)?
        .arg(valued(
            heap,
            "csv",
            "FILE",
            "write the rows to a file as comma-separated values too",
        ))?
        .arg(flag(heap, "plain", "print the counts alone, for scripts"))?;
    with_draws(heap, command)
}

// `check`: what a plan file says.
fn check<'a>(heap: Global) -> Result<Command<'a>, AllocError> {
    Command::new(heap, "check")
        .about(
            "Says what is in a plan file, or which rule it breaks, and warns of what may mislead",
        )
        .arg(plan(heap))
}

// `possible`: the first offers.
fn possible<'a>(heap: Global) -> Result<Command<'a>, AllocError> {
    Command::new(heap, "possible")
        .about(
            "Says what may happen first: the changes possible in stage 0 with all timers at zero",
        )
        .arg(plan(heap))
}

// `regions`: a walk through regions.
fn regions<'a>(heap: Global) -> Result<Command<'a>, AllocError> {
    let moves = Arg::new(heap, "MOVE")
        .action(ArgAction::Append)
        .num_args(0..)
        .allow_negative_numbers(true)
        .help("the moves, at most 10000");
    Command::new(heap, "regions")
        .about("Walks a plan's timers from zero by moves and prints each region")
        .after_help(MOVES)
        .arg(plan(heap))?
        .arg(moves)
}

// `run`: one run, told step by step.
fn run<'a>(heap: Global) -> Result<Command<'a>, AllocError> {
    let command = Command::new(heap, "run")
        .about("Runs a plan by a scheduler and tells each step in seconds")
        .arg(plan(heap))?
        .arg(valued(
            heap,
            "scheduler",
            "NAME",
            "earliest, latest, or the identifier of a sampled one [default: earliest]",
        ))?
        .arg(valued(
            heap,
            "steps",
            "N",
            "make at most so many steps, 1 to 10000 [default: 100]",
        ))?
        .arg(row(heap))?
        .arg(plain(heap))?;
    with_draws(heap, command)
}

// `replay`: the calls of a file.
fn replay<'a>(heap: Global) -> Result<Command<'a>, AllocError> {
    let calls = Arg::new(heap, "CALLS")
        .required(true)
        .help("the file of calls");
    let command = Command::new(heap, "replay")
        .about("Makes the calls of a file and tells what each replies")
        .after_help(CALLS)
        .arg(plan(heap))?
        .arg(calls)?
        .arg(row(heap))?
        .arg(plain(heap))?;
    with_draws(heap, command)
}

// All commands.
pub fn command_line<'a>(heap: Global) -> Result<Command<'a>, AllocError> {
    Command::new(heap, "junction")
        .bin_name("junction")?
        .version("1.0.0")
        .about("Runs the signal plan of a junction and tells how often a goal is reached in time")
        .after_help(EXAMPLES)
        .subcommand(batch(heap)?)?
        .subcommand(check(heap)?)?
        .subcommand(possible(heap)?)?
        .subcommand(regions(heap)?)?
        .subcommand(replay(heap)?)?
        .subcommand(run(heap)?)
}
