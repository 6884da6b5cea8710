// Measures how evenly the first draws of neighbouring rows are spread, mixed and by the
// congruential rule: of the rows 0 to 999, how many begin below a tenth and below a half of all
// draws. Of evenly spread draws 100 and 500 are expected, with standard errors of 9.49 and 15.81,
// so that within four of them lie 63 to 137 and 437 to 563.
#![tactic(auto)]

ghost use Rattle.std.specs.Prelude.{◌≤◌};

use draws::congruential::Congruential;
use draws::mixed::Mixed;
use draws::source::DrawSource;
use std::process::ExitCode;

// The rows that are looked at.
const ROWS: u32 = 1_000;

// The seeds that are looked at: those below this.
const SEEDS: u32 = 10;

// How many first draws lie below a tenth and below a half of 2^32.
#[derive(Clone, Copy)]
struct Spread {
    tenth: u32,
    half: u32,
}

impl Spread {
    // Whether both counts are within four standard errors of what is expected.
    fn is_even(self) -> bool {
        (63..=137).contains(&self.tenth) && (437..=563).contains(&self.half)
    }
}

// How many of the first rows begin below a limit.
fn begin_below<D: DrawSource>(source: &mut D, limit: u32) -> u32
    ensures few { result ≤ 1000 }
{
    let mut below = 0;
    for row in 0..ROWS {
        source.start_row(row);
        if source.draw().is_ok_and(|draw| draw < limit) {
            below += 1;
        }
    }
    below
}

// The spread of the first draws of a source.
fn spread_of<D: DrawSource>(source: &mut D) -> Spread {
    Spread {
        // Ten times 429496729 is below 2^32, and ten times the next is not.
        tenth: begin_below(source, 429_496_730),
        half: begin_below(source, 1 << 31),
    }
}

fn main(rt: HostRuntime) -> anyhow::Result<ExitCode> {
    println!(rt; "of the first draws of rows 0 to 999, below a tenth and below a half")?;
    println!(rt; "seed: mixed, computed")?;
    let mut all_even = true;
    for seed in 0..SEEDS {
        let mixed = spread_of(&mut Mixed::new(seed));
        let computed = spread_of(&mut Congruential::new(seed));
        println!(rt;
            "{seed}: {} {}, {} {}",
            mixed.tenth, mixed.half, computed.tenth, computed.half
        )?;
        all_even = all_even && mixed.is_even();
    }
    if all_even {
        println!(rt; "mixed: each within four standard errors of 100 and 500")?;
        return Ok(ExitCode::SUCCESS);
    }
    println!(rt; "mixed: not each within four standard errors of 100 and 500")?;
    Ok(ExitCode::FAILURE)
}
