// The calls that a list may hold, and what is told of each.
use offers::list::OfferList;
use rows::refusal::Refusal;
use runs::{Answer, Standing, State};

// A call of a run. Each step has its own scheduler.
#[derive(Clone, Copy, Debug, PartialEq, Eq)]
pub enum Call<S> {
    Step(S),
    Take { change: u16, wait: u32 },
    Offers,
    Standing,
}

// What a call replies.
#[derive(Clone, Copy, Debug, PartialEq, Eq)]
pub enum Reply {
    Answered(Result<Answer, Refusal>),
    Offered(OfferList),
    Stands(Standing),
}

// A call's reply, and where the run is and how it stands after it.
#[derive(Clone, Copy, Debug, PartialEq, Eq)]
pub struct Entry {
    pub reply: Reply,
    pub at: State,
    pub standing: Standing,
}
