// What a file plainly is that is no plan.
ghost use Rattle.std.specs.Prelude.{◌≡◌, ◌≤◌, None, false, length, MatchOption};
ghost use Rattle.describe.specs.Kinds.{IsPlainly, is_plain_text, is_text_char};
ghost use Rattle.rows.specs.Plans.{PlanRows, file_of};
ghost use Rattle.rows.specs.Sound.{Sound};

use std::fmt;
use std::str::from_utf8;

// The bytes of the shortest plan: six counts of 2 bytes, one timer of 2 bytes, one stage of 10 and
// one goal of 4. A plan may do without comparisons, changes and outcomes.
const SHORTEST_PLAN: usize = 6 * 2 + 2 + 10 + 4;

// What a file is where it is plainly no plan. One that is too short has so many bytes.
#[derive(Clone, Copy, Debug, PartialEq, Eq)]
pub enum NoPlan {
    Empty,
    TooShort(usize),
    Text,
}

impl fmt::Display for NoPlan {
    fn fmt<W: fmt::Write>(&self, f: &mut fmt::Formatter<W>) -> fmt::Result {
        match *self {
            NoPlan::Empty => write!(f, "it is empty"),
            NoPlan::TooShort(1) => {
                write!(
                    f,
                    "it has 1 byte, and the shortest plan has {SHORTEST_PLAN}"
                )
            }
            NoPlan::TooShort(bytes) => {
                write!(
                    f,
                    "it has {bytes} bytes, and the shortest plan has {SHORTEST_PLAN}"
                )
            }
            NoPlan::Text => write!(f, "it holds text"),
        }
    }
}

// A character that is written, or that breaks or indents a line of text.
fn is_written(c: char) -> bool
    ensures { result ≡ is_text_char c }
{
    !c.is_control() || c == '\t' || c == '\n' || c == '\x0c' || c == '\r'
}

// Whether bytes hold a text of such characters alone.
fn is_text(bytes: &[u8]) -> bool
    ensures { result ≡ is_plain_text bytes.now }
{
    match from_utf8(bytes) {
        Ok(text) => text.chars().all(is_written),
        Err(_) => false,
    }
}

// What a file plainly is that is no plan, if that is plain: empty, a text, or shorter than every
// plan. A text is said to be one whatever its length.
pub fn plainly_no_plan(bytes: &[u8]) -> Option<NoPlan>
    ensures it_is_so { MatchOption result
        ((28 ≤ length bytes.now) × (is_plain_text bytes.now ≡ false)) (IsPlainly bytes.now) }
    ensures no_plan_is_said_to_be_none { (p : PlanRows)
        → Sound p → bytes.now ≡ file_of p → result ≡ None }
{
    if bytes.is_empty() {
        return Some(NoPlan::Empty);
    }
    if is_text(bytes) {
        return Some(NoPlan::Text);
    }
    if bytes.len() < SHORTEST_PLAN {
        return Some(NoPlan::TooShort(bytes.len()));
    }
    None
}
