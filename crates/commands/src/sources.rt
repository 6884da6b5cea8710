// Where the draws of a run come from.
ghost use Rattle.std.specs.Prelude.{◌≡◌, IfOk};
ghost use Rattle.draws.specs.Either.{book_of, coming_of};

use crate::files::text_of;
use anyhow::Context;
use describe::numbers::number;
use draws::congruential::Congruential;
use draws::either::Source;
use draws::mixed::Mixed;
use draws::source::DrawSource;
use draws::tape::Tape;

// The rules by which draws are computed from a seed.
#[derive(Clone, Copy)]
pub enum Rule {
    Mixed,
    Computed,
}

// A seed and a rule, or recorded numbers that a tape goes over: a file of them by its path, or as
// they were read.
#[derive(Drop)]
pub enum Draws<T> {
    Seed { rule: Rule, seed: u32 },
    Tape { numbers: T, row_length: usize },
}

// The numbers of a tape file.
fn numbers_in(rt: &HostRuntime, path: &str) -> anyhow::Result<Vec<u32>> {
    let text = text_of(rt, path)?;
    let mut numbers = Vec::new(rt.alloc());
    for word in text.as_str().split_whitespace() {
        let place = numbers.len() + 1;
        let n = number(word).context(format_args!(
            "number {place} of {path} is not from 0 to 4294967295: {word}"
        ))?;
        numbers.push(n)?;
    }
    Ok(numbers)
}

impl Draws<String> {
    ghost use Rattle.commands.specs.Sources.{Loaded};

    // Reads the numbers of a tape; a seed needs no reading.
    pub fn load(&self, rt: &HostRuntime) -> anyhow::Result<Draws<Vec<u32>>>
        ensures { IfOk result (Loaded self.now) }
    {
        match self {
            Draws::Seed { rule, seed } => Ok(Draws::Seed {
                rule: *rule,
                seed: *seed,
            }),
            Draws::Tape {
                numbers: path,
                row_length,
            } => Ok(Draws::Tape {
                numbers: numbers_in(rt, path.as_str())?,
                row_length: *row_length,
            }),
        }
    }
}

impl Draws<Vec<u32>> {
    ghost use Rattle.commands.specs.Sources.{book_asked};

    // The source of the draws.
    fn source(&self) -> Source<'_>
        ensures { book_of result ≡ book_asked self.now }
    {
        match self {
            Draws::Seed {
                rule: Rule::Mixed,
                seed,
            } => Source::Mixed(Mixed::new(*seed)),
            Draws::Seed {
                rule: Rule::Computed,
                seed,
            } => Source::Computed(Congruential::new(*seed)),
            Draws::Tape {
                numbers,
                row_length,
            } => Source::Recorded(Tape::new(numbers, *row_length)),
        }
    }

    // The source of the draws, at one of its rows.
    pub fn source_at(&self, row: u32) -> Source<'_>
        ensures rows { book_of result ≡ book_asked self.now }
        ensures at_its_row { coming_of result ≡ book_asked self.now row }
    {
        let mut source = self.source();
        source.start_row(row);
        source
    }
}
