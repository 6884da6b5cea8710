// Offers in words.
use runs::Offer;
use std::fmt;

// A wait of an offer in seconds, at two steps to a second. An odd number of steps lies between two
// whole seconds: a first wait is just after the lower of them, a last wait just before the higher.
#[derive(Clone, Copy)]
enum Bound {
    First(u32),
    Last(u32),
}

impl fmt::Display for Bound {
    fn fmt<W: fmt::Write>(&self, f: &mut fmt::Formatter<W>) -> fmt::Result {
        match *self {
            Bound::First(steps) | Bound::Last(steps) if steps % 2 == 0 => {
                write!(f, "{} s", steps / 2)
            }
            Bound::First(steps) => write!(f, "just after {} s", steps / 2),
            Bound::Last(steps) => write!(f, "just before {} s", steps / 2 + 1),
        }
    }
}

// An offer where all timers stand at zero, so that a second has two steps.
#[derive(Clone, Copy)]
pub struct OfferAtZero(pub Offer);

impl fmt::Display for OfferAtZero {
    fn fmt<W: fmt::Write>(&self, f: &mut fmt::Formatter<W>) -> fmt::Result {
        let Offer {
            change,
            lowest,
            highest,
        } = self.0;
        let from = Bound::First(lowest);
        let until = Bound::Last(highest);
        write!(
            f,
            "change {change}: from {from} to {until} (waits of {lowest} to {highest} steps)"
        )
    }
}
