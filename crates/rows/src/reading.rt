// What the numbers of a checked row mean.
ghost use Rattle.std.specs.Prelude.{◌≡◌, ◌<◌};
ghost use Rattle.rows.specs.Readings.{mark_number, mark_of, reading_of, relation_of, row_of};

use crate::tables::{ComparisonRow, StageRow};

#[derive(Clone, Copy, Debug, PartialEq, Eq)]
pub enum Relation {
    AtLeast,
    Above,
    AtMost,
    Below,
}

// What is compared: a timer, or how far a timer is ahead of another.
#[derive(Clone, Copy, Debug, PartialEq, Eq)]
pub enum Subject {
    Timer(u8),
    Lead(u8, u8),
}

#[derive(Clone, Copy, Debug, PartialEq, Eq)]
pub struct Comparison {
    pub subject: Subject,
    pub relation: Relation,
    pub constant: u16,
}

#[derive(Clone, Copy, Debug, PartialEq, Eq)]
pub enum Mark {
    Unmarked,
    Goal,
    Avoid,
    Both,
}

// Every number has a relation, so that a row can be read before it is checked: TryFrom would answer an error here. No From, since a
// kind says more than its relation: whether it is a lead.
fn relation_of(kind: u8) -> Relation
    ensures { result ≡ relation_of kind }
{
    match kind % 4 {
        0 => Relation::AtLeast,
        1 => Relation::Above,
        2 => Relation::AtMost,
        _ => Relation::Below,
    }
}

impl ComparisonRow {
    // The comparison of a row: a row whose numbers are known is the row of its comparison. A method and no From, since callers read
    // `row.reading()`, which is plainer than a conversion.
    pub fn reading(self) -> Comparison
        ensures value { result ≡ reading_of self }
        ensures a_known_row_is_the_row_of_its_reading { self.kind < 8 → self.filler ≡ 0 → (self.kind < 4 → self.second ≡ 0) → row_of result ≡ self }
    {
        let subject = if self.kind < 4 {
            Subject::Timer(self.first)
        } else {
            Subject::Lead(self.first, self.second)
        };
        Comparison {
            subject,
            relation: relation_of(self.kind),
            constant: self.constant,
        }
    }
}

impl StageRow {
    // The mark of a stage. Every number has one, where TryFrom would answer an error; a known number is the number of its mark. No From,
    // since it is a stage that is marked and no number.
    pub fn marking(self) -> Mark
        ensures value { result ≡ mark_of self.mark }
        ensures a_known_number_is_that_of_its_mark { self.mark < 4 → mark_number result ≡ self.mark }
    {
        match self.mark {
            0 => Mark::Unmarked,
            1 => Mark::Goal,
            2 => Mark::Avoid,
            _ => Mark::Both,
        }
    }
}
