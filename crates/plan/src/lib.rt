// Plans that are sound: the check of handed tables, and the reader of plan files.
#![tactic(auto)]

pub mod check;
pub mod handed;
pub mod records;
pub mod tables;
