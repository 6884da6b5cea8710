// Walks a plan's timers through waits and resets, and prints the region after each.
ghost use Rattle.std.specs.Prelude.{◌≡◌, ℕ, ◌≤◌, true, is_err, length, map, IfOk, MatchOption};
ghost use Rattle.region.specs.Viewed.{viewed};
ghost use Rattle.commands.specs.Walks.{AskMove, AskMoves, NamesTimer, NamesTimers, moved};
ghost use Rattle.commands.specs.Walks.{with_timer};
ghost use Rattle.commands.specs.declared.walk.Move.{Move};
ghost use Rattle.commands.specs.declared.walk.Timers.{Timers};

use crate::failure::Failure;
use crate::files::PlanFile;
use crate::options::file_of;
use anyhow::{Context, anyhow};
use clap::ArgMatches;
use describe::faults::{RefusedReset, ShownRefusal};
use describe::numbers::number;
use describe::regions::{Intervals, ShownRegion};
use region::Region;
use rows::refusal::Refusal;
use rows::tables::TimerRow;
use std::alloc::Global;

// The timers of a reset: bit i for timer i, or that one is named which no plan has, as x16.
#[derive(Clone, Copy)]
enum Timers {
    Bits(u16),
    NotThere,
}

// What may be asked of a region.
#[derive(Clone, Copy)]
enum Move {
    Wait(u32),
    Reset(Timers),
}

// The number of a timer that is written as x0, x1 and so on.
fn timer_number(word: &str) -> Option<u32>
    ensures { MatchOption result ((timer : ℕ) → NamesTimer word.now timer → ⊥)
        (λ timer. NamesTimer word.now timer) }
{
    number(word.strip_prefix('x')?)
}

impl Timers {
    // These timers and one more.
    fn and(self, timer: u32) -> Timers
        ensures { result ≡ with_timer self timer }
    {
        match (self, 1u16.checked_shl(timer)) {
            (Timers::Bits(bits), Some(bit)) => Timers::Bits(bits | bit),
            _ => Timers::NotThere,
        }
    }
}

// The timers that are written as x0,x1.
fn timers_named(words: &str) -> Option<Timers>
    ensures { MatchOption result ((t : Timers) → NamesTimers words.now t → ⊥)
        (λ t. NamesTimers words.now t) }
{
    let mut timers = Timers::Bits(0);
    for word in words.split(',') {
        timers = timers.and(timer_number(word)?);
    }
    Some(timers)
}

// The move that two words ask for, if they ask for one.
fn parsed(name: &str, value: &str) -> Option<Move>
    ensures { MatchOption result ((m : Move) → AskMove name.now value.now m → ⊥)
        (λ m. AskMove name.now value.now m) }
{
    match name {
        "wait" => Some(Move::Wait(number(value)?)),
        "reset" => Some(Move::Reset(timers_named(value)?)),
        _ => None,
    }
}

// How a move is written.
const A_MOVE: &str = "a move is 'wait STEPS' or 'reset x0,x1'";

// The most moves that a walk makes.
const MOST_MOVES: usize = 10_000;

// The moves that words ask for, two words each. Words that ask for none are told with their place.
#[tactic(auto, using(crate::proofs::Moves::one_move_more, crate::proofs::Moves::all_moves))]
fn moves_for(heap: Global, words: &[&str]) -> Result<Vec<Move>, Failure>
    ensures asked { IfOk result (λ ms. AskMoves (map (λ w. w.now) words.now) ms.items) }
    ensures few { IfOk result (λ ms. length ms.items ≤ 10000) }
{
    let mut moves = Vec::new(heap);
    let many = words.len() / 2;
    if many > MOST_MOVES {
        return Err(Failure::Words(anyhow!("a walk has at most {MOST_MOVES} moves, not {many}")));
    }
    for place in 0..words.len() / 2 {
        let name = words[2 * place];
        let value = words[2 * place + 1];
        let number = place + 1;
        let asked = parsed(name, value)
            .context(format_args!("move {number}, '{name} {value}', is none: {A_MOVE}"))
            .map_err(Failure::Words)?;
        moves.push(asked)?;
    }
    if words.len() % 2 == 1 {
        let word = words[words.len() - 1];
        return Err(Failure::Words(anyhow!("the last word, '{word}', has no value: {A_MOVE}")));
    }
    Ok(moves)
}

// Makes a move from a region.
fn made(region: &mut Region, m: Move, ceilings: &[TimerRow]) -> Result<(), Refusal>
    ensures answer { moved ceilings.now m (viewed region.old) ≡ (result, viewed region.new) }
    ensures refused_unchanged { is_err result ≡ true → region.new ≡ region.old }
{
    match m {
        Move::Wait(steps) => region.wait(steps, ceilings),
        Move::Reset(Timers::Bits(timers)) => region.reset(timers),
        Move::Reset(Timers::NotThere) => Err(Refusal::NotThere),
    }
}

// Prints a region, by its classes and as a planner reads it.
fn show(rt: &HostRuntime, region: &Region) -> anyhow::Result<()> {
    println!(rt; "{} | {}", ShownRegion(region), Intervals(region))?;
    Ok(())
}

// Prints why a move is refused.
fn print_refused(rt: &HostRuntime, m: Move, refusal: Refusal) -> anyhow::Result<()> {
    match m {
        Move::Wait(_) => println!(rt; "{}", ShownRefusal(refusal))?,
        Move::Reset(_) => println!(rt; "{}", RefusedReset(refusal))?,
    }
    Ok(())
}

// Goes through the moves. A refused one is told, and the walk goes on from where it was.
fn print_walk(rt: &HostRuntime, path: &str, moves: &[Move]) -> anyhow::Result<()> {
    let file = PlanFile::open(rt, path)?;
    let ceilings = file.tables().timers;
    let mut region = Region::opening(ceilings.len());
    show(rt, &region)?;
    for m in moves {
        match made(&mut region, *m, ceilings) {
            Ok(()) => show(rt, &region)?,
            Err(refusal) => print_refused(rt, *m, refusal)?,
        }
    }
    Ok(())
}

// Walks a plan's timers from zero. All moves are read before any is made.
pub fn regions(rt: &HostRuntime, given: &ArgMatches<'_>) -> Result<(), Failure> {
    let words = given.get_strs("MOVE").unwrap_or(&[]);
    let moves = moves_for(rt.alloc(), words)?;
    print_walk(rt, file_of(given, "PLAN"), &moves)?;
    Ok(())
}
