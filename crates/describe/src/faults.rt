// Refusals in words.
use rows::fault::{Fault, Where};
use rows::refusal::Refusal;
use std::fmt;

// The number of the rule that was broken, and the rule.
#[derive(Clone, Copy)]
pub struct ShownRefusal(pub Refusal);

impl fmt::Display for ShownRefusal {
    fn fmt<W: fmt::Write>(&self, f: &mut fmt::Formatter<W>) -> fmt::Result {
        let number = self.0.number();
        write!(f, "refused {number}: {}", self.0)
    }
}

// What a refused reset of timers broke: only timers are named there, so a name that is not there is
// a timer's.
#[derive(Clone, Copy)]
pub struct RefusedReset(pub Refusal);

impl fmt::Display for RefusedReset {
    fn fmt<W: fmt::Write>(&self, f: &mut fmt::Formatter<W>) -> fmt::Result {
        match self.0 {
            Refusal::NotThere => {
                let number = self.0.number();
                write!(
                    f,
                    "refused {number}: the reset names a timer that is not there"
                )
            }
            refusal => write!(f, "{}", ShownRefusal(refusal)),
        }
    }
}

// The rule that was broken, its number, and where it was.
#[derive(Clone, Copy)]
pub struct Refused(pub Fault);

impl fmt::Display for Refused {
    fn fmt<W: fmt::Write>(&self, f: &mut fmt::Formatter<W>) -> fmt::Result {
        let refusal = ShownRefusal(self.0.refusal);
        match self.0.at {
            Where::File => write!(f, "{refusal}"),
            Where::Section(section) => write!(f, "{refusal} ({section})"),
            Where::Record(section, place) => { write!(f, "{refusal} ({section}, record {place})") }
        }
    }
}
