// Plans, batches, offers, regions, calls, entries, histories and refusals in words, batches as
// comma-separated values, and what is said of files that are no plans.
#![tactic(auto)]

pub mod batches;
pub mod calls;
pub mod csv_rows;
pub mod entries;
#[cfg(test)]
mod examples;
pub mod faults;
pub mod history;
pub mod identifiers;
pub mod kinds;
mod lists;
mod loss_warning;
pub mod losses;
pub mod numbers;
pub mod offered;
pub mod plan_warning;
pub mod plans;
pub mod regions;
pub mod repeats;
mod seconds;
pub mod shares;
pub mod tables;
mod timers;
