// The rows of a plan, the sections they stand in, the refusals, and what a checked row means.
#![tactic(auto)]

pub mod fault;
pub mod reading;
pub mod refusal;
pub mod section;
pub mod tables;
