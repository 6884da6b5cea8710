// Entries in words, as `taken 0 4 1 | stage 1 | whole 1 0.0 2.0 | reached`.
// Each type is shown by a wrapper, since a type's own Display stands in its own crate, and the words of a run are this crate's.
use crate::regions::ShownRegion;
use offers::list::OfferList;
use rows::refusal::Refusal;
use run::call::{Entry, Reply};
use runs::{Answer, Offer, Standing};
use std::fmt;

// How a run stands, in a word.
#[derive(Clone, Copy)]
struct ShownStanding(Standing);

impl fmt::Display for ShownStanding {
    fn fmt<W: fmt::Write>(&self, f: &mut fmt::Formatter<W>) -> fmt::Result {
        f.write_str(match self.0 {
            Standing::Open => "open",
            Standing::Reached => "reached",
            Standing::Failed => "failed",
            Standing::Stuck => "stuck",
        })
    }
}

// What a take or a step answers.
#[derive(Clone, Copy)]
struct ShownAnswer(Result<Answer, Refusal>);

impl fmt::Display for ShownAnswer {
    fn fmt<W: fmt::Write>(&self, f: &mut fmt::Formatter<W>) -> fmt::Result {
        match self.0 {
            Ok(
                Answer::Taken {
                    change,
                    wait,
                    outcome,
                },
            ) => write!(f, "taken {change} {wait} {outcome}"),
            Ok(Answer::Met { wait }) => write!(f, "met {wait}"),
            Ok(Answer::RanOut) => write!(f, "ran out"),
            Err(refusal) => {
                let number = refusal.number();
                write!(f, "refused {number}")
            }
        }
    }
}

// A list of offers: `offers 0:4-6 2:0-8`, or `offers none`.
#[derive(Clone, Copy)]
struct ShownOffers<'a>(&'a OfferList);

impl<'a> fmt::Display for ShownOffers<'a> {
    fn fmt<W: fmt::Write>(&self, f: &mut fmt::Formatter<W>) -> fmt::Result {
        if self.0.is_empty() {
            return write!(f, "offers none");
        }
        write!(f, "offers")?;
        for offer in self.0.as_slice() {
            let Offer {
                change,
                lowest,
                highest,
            } = *offer;
            write!(f, " {change}:{lowest}-{highest}")?;
        }
        Ok(())
    }
}

// What a call replies.
#[derive(Clone, Copy)]
struct ShownReply<'a>(&'a Reply);

impl<'a> fmt::Display for ShownReply<'a> {
    fn fmt<W: fmt::Write>(&self, f: &mut fmt::Formatter<W>) -> fmt::Result {
        match *self.0 {
            Reply::Answered(answer) => write!(f, "{}", ShownAnswer(answer)),
            Reply::Offered(list) => write!(f, "{}", ShownOffers(&list)),
            Reply::Stands(standing) => write!(f, "standing {}", ShownStanding(standing)),
        }
    }
}

// What a call replied, and where the run was after it.
#[derive(Clone, Copy)]
pub struct ShownEntry<'a>(pub &'a Entry);

impl<'a> fmt::Display for ShownEntry<'a> {
    fn fmt<W: fmt::Write>(&self, f: &mut fmt::Formatter<W>) -> fmt::Result {
        let reply = ShownReply(&self.0.reply);
        let stage = self.0.at.stage;
        let region = ShownRegion(&self.0.at.region);
        let standing = ShownStanding(self.0.standing);
        write!(f, "{reply} | stage {stage} | {region} | {standing}")
    }
}
