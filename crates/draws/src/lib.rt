// Where draws come from, and which outcome a draw picks.
#![tactic(auto)]

pub mod congruential;
pub mod either;
pub mod mixed;
pub mod source;
pub mod tape;
pub mod ticket;
