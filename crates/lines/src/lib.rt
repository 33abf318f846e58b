// A schedule's lines, read byte by byte: what has been read of a line, and what a run does with it.
#![tactic(auto)]

pub mod reading;

// What has been read of a line that is not ended yet: its letter, and its number so far.
#[derive(Clone, Copy)]
pub enum Part {
    // Stays among the parts: definition Reading.act has it so.
    Nothing,
    Letter(u8),
    Space(u8),
    Number(u8, u64),
}

// Where a run stands: before its first line is read, among its events, or at its end.
#[derive(Clone, Copy)]
pub enum Stage {
    Opening,
    Running,
    Over,
}

// What a run does with a byte: it keeps what it has read of a line, opens a table of so many ports, carries out an event at a port, or ends at a
// malformed line.
// Stays a number, an order's event: definition Reading.act gives it, and lock::orders::order takes any number.
#[derive(Clone, Copy)]
pub enum Act {
    Keep(Part),
    Open(u64),
    Order { letter: u8, event: u64, port: u64 },
    Bad,
}
