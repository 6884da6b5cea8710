// Choosing among offers: the foremost entry of a list, and three schedulers.
#![tactic(auto)]

pub mod chooser;
pub mod first_last;
pub mod foremost;
pub mod hash;
pub mod sampled;
pub mod scheduler;
#[cfg(test)]
mod tests;
