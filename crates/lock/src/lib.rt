// The lock engine: an event on a table.
#![tactic(auto)]

pub mod acts;
pub mod events;
pub mod orders;
pub mod runs;
mod steps;
