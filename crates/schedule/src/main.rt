// Reads a schedule on standard input and prints its listing: a thin loop over the library `listing`. Input and output go in large pieces, and what a piece
// prints is written before the next is read. Its memory does not grow with the input. Its exit status is 0, also after a malformed line: `BAD` says that.
#![tactic(auto)]

ghost use Rattle.std.specs.Prelude.{◌≡◌, ◌≤◌, ◌<◌, length, drop, IfOk};
ghost use Rattle.listing.specs.Took.{took};

use lines::reading;
use listing::{Fed, Run, runs};
use std::{fmt, io};
use text::LONGEST;

// How many bytes are read, or written, at a time.
// Stay fixed buffers, of this size and of a line's: memory does not grow with the input, and `runs::feed` writes into what it is lent.
const PIECE: usize = 65536;

// Why the listing stops before its end.
#[derive(Clone, Copy)]
enum Failed {
    Read,
    Write,
}

impl fmt::Display for Failed {
    fn fmt<W: fmt::Write>(&self, f: &mut fmt::Formatter<W>) -> fmt::Result {
        match self {
            Failed::Read => write!(f, "cannot read"),
            Failed::Write => write!(f, "cannot write"),
        }
    }
}

// Writes all of a text to standard output.
fn write(rt: &impl Print, text: &[u8]) -> Result<(), Failed> {
    rt.write_all(text).map_err(|_| Failed::Write)
}

// Feeds the run once, and writes what it printed. What is left of the piece is still to be taken; a run that takes nothing is at its end. That holds also
// where what it printed could not be written.
fn feed(rt: &impl Print, run: Run, piece: &[u8]) -> (Fed, Result<(), Failed>)
    ensures taken_in_bounds { result.0.taken ≤ length piece.now }
    ensures rest_to_take { took run piece.now ≡ took result.0.run (drop result.0.taken piece.now) }
    ensures at_its_end { 0 < length piece.now → result.0.taken ≡ 0 → took run piece.now ≡ result.0.run }
{
    let mut out = [0u8; PIECE];
    let fed = runs::feed(run, piece, &mut out);
    (fed, write(rt, &out[..fed.written]))
}

// Feeds the run until the piece is used up or the run is at its end: it has then taken every byte of the piece that it takes.
fn feed_all(rt: &impl Print, run: Run, piece: &[u8]) -> Result<Run, Failed>
    ensures { IfOk result (λ after. after ≡ took run piece.now) }
{
    let mut now = run;
    let mut rest = piece;
    // Stays a while: no plainer as a for, as how much a turn takes is known after it.
    while !rest.is_empty() {
        let (fed, written) = feed(rt, now, rest);
        written?;
        now = fed.run;
        if fed.taken == 0 {
            break;
        }
        rest = &rest[fed.taken..];
    }
    Ok(now)
}

// Writes what the end of the input prints.
fn end(rt: &impl Print, run: Run) -> Result<(), Failed> {
    let mut out = [0u8; LONGEST];
    let n = runs::finish(run, &mut out);
    write(rt, &out[..n])
}

// Lists all of an input. A run at its end waits for no more of it. A proved loop has to end, and nothing says that an input does: there are as many turns
// as a number that no run uses up.
fn list<I: io::Read>(rt: &impl Print, input: &mut I) -> Result<(), Failed> {
    let mut piece = [0u8; PIECE];
    let mut run = runs::start();
    for _ in 0..u64::MAX {
        let n = input.read(&mut piece).map_err(|_| Failed::Read)?;
        if n == 0 {
            return end(rt, run);
        }
        run = feed_all(rt, run, &piece[..n])?;
        if !reading::live(run.stage) {
            break;
        }
    }
    Ok(())
}

fn main(rt: HostRuntime) {
    let mut input = rt.stdin();
    if let Err(failed) = list(&rt, &mut input) {
        let _ = eprintln!(rt; "schedule: {failed}");
    }
}
