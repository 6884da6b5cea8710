// What may happen next: the waits that comparisons allow, the hold interval of a stage, and the changes that are possible.
#![tactic(auto)]

mod hold;
pub mod list;
mod possible;
pub mod sound_plan;
mod stage;
#[cfg(test)]
mod tests;
pub mod waits;
