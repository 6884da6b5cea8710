// The reader of plan files.
#![tactic(auto)]

mod bytes;
mod fill;
pub mod owned;
mod parts;
pub mod read;
mod section;
