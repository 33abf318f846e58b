// The listing of a schedule: a run over an input that comes in pieces.
#![tactic(auto)]

use lines::{Part, Stage};
use model::Table;

pub mod runs;

// A run: the table, the number of the line that is being read, what has been read of that line, and where the run stands.
#[derive(Clone, Copy)]
pub struct Run {
    pub table: Table,
    pub number: u64,
    pub part: Part,
    pub stage: Stage,
}

// What a piece of input gives: the run after it, how many bytes were taken, and how many were written.
#[derive(Clone, Copy)]
pub struct Fed {
    pub run: Run,
    pub taken: usize,
    pub written: usize,
}
