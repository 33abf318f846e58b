// The lines of a listing, put into a lent buffer.
#![tactic(auto)]

ghost use Rattle.std.specs.Prelude.{◌≡◌, ◌+◌, ◌≤◌, leb, length};
ghost use Rattle.std.proofs.lemmas.List.Edits.{sets};
ghost use Rattle.text.specs.Text as Text;
ghost use Rattle.text.specs.Parts as Parts;

use model::Shared;
use putting::Sheet;

mod putting;

// Room for the longest line.
pub const LONGEST: usize = 256;

// What is printed for an event: the line's number, the event's letter and port, the answer, the port's point, what all ports share, and both costs.
// Stays numbers: a row is printed whatever numbers it holds (definition Parts.row_text).
#[derive(Clone, Copy)]
pub struct Row {
    pub number: u64,
    pub port: u64,
    pub answer: u64,
    pub point: u64,
    pub cached: u64,
    pub distributed: u64,
    pub shared: Shared,
    pub letter: u8,
}

// There is room for the longest line from a place on.
fn has_room(room: usize, at: usize) -> bool
    ensures { result ≡ leb (at + Text.longest) room }
{
    LONGEST <= room && at <= room - LONGEST
}

// Puts the line for an event into `out` from a place on, where there is room for the longest line, and else nothing; gives the place after it.
// Stays a buffer and a place, and a function beside put_bad: the clauses of both name them.
pub fn put_row(out: &mut [u8], at: usize, row: Row) -> usize
    ensures value { result ≡ at + length (Parts.fitting (length out.old) at (Parts.row_text row)) }
    ensures out_after { out.new ≡ sets out.old at (Parts.fitting (length out.old) at (Parts.row_text row)) }
    ensures upper_bound { result ≤ at + Text.longest }
{
    if has_room(out.len(), at) {
        let mut sheet = Sheet { out, at };
        sheet.event(row);
        return sheet.at;
    }
    at
}

// The same with `BAD` and the number of a malformed line.
pub fn put_bad(out: &mut [u8], at: usize, number: u64) -> usize
    ensures value { result ≡ at + length (Parts.fitting (length out.old) at (Text.bad number)) }
    ensures out_after { out.new ≡ sets out.old at (Parts.fitting (length out.old) at (Text.bad number)) }
    ensures upper_bound { result ≤ at + Text.longest }
{
    if has_room(out.len(), at) {
        let mut sheet = Sheet { out, at };
        sheet.bad(number);
        return sheet.at;
    }
    at
}
