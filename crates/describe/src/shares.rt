// Shares of runs in tenths of a percent, and how far off such a share may be.
ghost use Rattle.std.specs.Prelude.{◌≡◌, ◌<◌, ◌↔◌, IsTrue};
ghost use Rattle.describe.specs.Shares.{AreEnough, IsLeastHalfWidth, IsShareOf};

use std::fmt;

// Tenths with a decimal point, as `48.7`.
#[derive(Clone, Copy)]
pub(crate) struct Tenths(pub u32);

impl fmt::Display for Tenths {
    ghost use Rattle.std.specs.Prelude.{Some};
    ghost use Rattle.describe.specs.Numbers.{with_tenths};

    ghost output = { λ t. Some (with_tenths t.0) };

    fn fmt<W: fmt::Write>(&self, f: &mut fmt::Formatter<W>) -> fmt::Result {
        let whole = self.0 / 10;
        let rest = self.0 % 10;
        write!(f, "{whole}.{rest}")
    }
}

// A share of runs, in tenths of a percent.
#[derive(Clone, Copy, Debug, PartialEq, Eq)]
pub struct Share {
    tenths: u32,
}

impl Share {
    // The share of the runs that reached, to the nearest tenth of a percent, halves up. It is 0
    // where there are no runs, and 100 % where more are said to have reached than ran.
    pub fn of(reached: u32, runs: u32) -> Share
        ensures { IsShareOf reached runs result.tenths }
    {
        if runs == 0 {
            return Share { tenths: 0 };
        }
        let reached = u64::from(reached.min(runs));
        let runs = u64::from(runs);
        let tenths = (2000 * reached + runs) / (2 * runs);
        Share {
            tenths: tenths as u32,
        }
    }

    // The share as a number of percent.
    pub(crate) fn in_percent(self) -> Tenths
        ensures { result.0 ≡ self.tenths }
    {
        Tenths(self.tenths)
    }
}

impl fmt::Display for Share {
    fn fmt<W: fmt::Write>(&self, f: &mut fmt::Formatter<W>) -> fmt::Result {
        let room = f.width().unwrap_or(0).saturating_sub(3);
        let whole = self.tenths / 10;
        let rest = self.tenths % 10;
        write!(f, "{whole:>room$}.{rest}%")
    }
}

// What the runs of one scheduler times the square of a half-width, in tenths of a percent, must
// come to at least. By Hoeffding's bound the share of N runs is off by h or more with a chance of
// at most 2 exp(-2 N h h). That is at most 5 % where N h h is at least ln(40) / 2, which is
// 1.8444397..; with h in tenths of a percent that is a million times as much, here rounded up to
// a whole number.
const ENOUGH: u64 = 1_844_440;

// Whether so many runs are enough for a half-width of these tenths of a percent.
fn are_enough(runs: u32, tenths: u32) -> bool
    requires { tenths < 1000 }
    ensures { IsTrue result ↔ AreEnough runs tenths }
{
    let tenths = u64::from(tenths);
    ENOUGH <= u64::from(runs) * tenths * tenths
}

// How far off the share of one scheduler's runs may be, either way, in tenths of a percent: at
// least 95 times out of 100 it is not off by as much.
#[derive(Clone, Copy, Debug, PartialEq, Eq)]
pub struct HalfWidth {
    tenths: u32,
}

impl HalfWidth {
    // The half-width that so many runs give, rounded up to a tenth of a percent, and at most 100 %.
    pub fn of(runs: u32) -> HalfWidth
        ensures { IsLeastHalfWidth runs result.tenths }
    {
        for tenths in 0..1000 {
            if are_enough(runs, tenths) {
                return HalfWidth { tenths };
            }
        }
        HalfWidth { tenths: 1000 }
    }

    // The half-width as a number of percent.
    pub(crate) fn in_percent(self) -> Tenths
        ensures { result.0 ≡ self.tenths }
    {
        Tenths(self.tenths)
    }
}

impl fmt::Display for HalfWidth {
    fn fmt<W: fmt::Write>(&self, f: &mut fmt::Formatter<W>) -> fmt::Result {
        let whole = self.tenths / 10;
        let rest = self.tenths % 10;
        let behind = match whole {
            0..=9 => 4,
            10..=99 => 5,
            _ => 6,
        };
        let room = f.width().unwrap_or(0).saturating_sub(behind);
        write!(f, "{:>room$}{whole}.{rest}%", "±")
    }
}
