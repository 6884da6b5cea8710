// Waits in seconds.
ghost use Rattle.std.specs.Prelude.{◌≡◌, ℕ, ◌+◌, ◌*◌, ◌<◌};
ghost use Rattle.std.specs.Int.{◌∣◌, IsGcd};
ghost use Rattle.region.specs.Viewed.{viewed};

use region::Region;
use std::fmt;

// The greatest number that divides both.
fn greatest_common(a: u32, b: u32) -> u32
    ensures { IsGcd a b result }
{
    if b == 0 {
        return a;
    }
    greatest_common(b, a % b)
}

// Seconds as a whole number and a fraction in lowest terms: `2 s`, `1/2 s` or `1 3/4 s`.
#[derive(Clone, Copy)]
pub struct Seconds {
    whole: u32,
    part: u32,
    parts: u32,
}

impl Seconds {
    // The seconds of a wait that begins in a region. The fractions of its timers are read as evenly spaced.
    pub fn of_wait(steps: u32, region: &Region) -> Seconds
        ensures same_time { (result.whole * result.parts + result.part) * (2 * (viewed region.now).classes) ≡ steps * result.parts }
        ensures proper { result.part < result.parts }
        ensures lowest { (k : ℕ) → k ∣ result.part → k ∣ result.parts → k ≡ 1 }
    {
        let per_second = region.steps_per_second();
        let rest = steps % per_second;
        let common = greatest_common(per_second, rest);
        Seconds {
            whole: steps / per_second,
            part: rest / common,
            parts: per_second / common,
        }
    }
}

impl fmt::Display for Seconds {
    fn fmt<W: fmt::Write>(&self, f: &mut fmt::Formatter<W>) -> fmt::Result {
        let Seconds { whole, part, parts } = *self;
        match (whole, part) {
            (_, 0) => write!(f, "{whole} s"),
            (0, _) => write!(f, "{part}/{parts} s"),
            _ => write!(f, "{whole} {part}/{parts} s"),
        }
    }
}
