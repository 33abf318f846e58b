// Images of tables: document 01, section 'The image'.
#![tactic(auto)]

pub mod checking;
pub mod reader;
pub mod writer;
