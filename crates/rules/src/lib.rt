// Which tables are good: the rules of document 01 as functions.
#![tactic(auto)]

pub mod faults;
pub mod good;
