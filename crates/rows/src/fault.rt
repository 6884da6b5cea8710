// Which rule a plan breaks, and where it does.
ghost use Rattle.std.specs.Prelude.{◌≡◌};
ghost use Rattle.std.specs.Result.{result_err};
ghost use Rattle.rows.specs.Verdicts.{fault_at};

use crate::refusal::Refusal;
use crate::section::SectionName;

// Where in a plan a rule is broken. Records are named by their place in the section, from 0.
#[derive(Clone, Copy, Debug, PartialEq, Eq)]
pub enum Where {
    File,
    Section(SectionName),
    Record(SectionName, usize),
}

#[derive(Clone, Copy, Debug, PartialEq, Eq)]
pub struct Fault {
    pub refusal: Refusal,
    pub at: Where,
}

// What a check comes to that was made at some place: its refusal is told with the place.
pub fn placed(checked: Result<(), Refusal>, at: Where) -> Result<(), Fault>
    ensures { result_err result ≡ fault_at at (result_err checked) }
{
    checked.map_err(|refusal| Fault { refusal, at })
}
