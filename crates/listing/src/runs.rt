// A run over an input that comes in pieces.
ghost use Rattle.std.specs.Prelude.{◌≡◌, ◌+◌, ◌≤◌, length};
ghost use Rattle.std.proofs.lemmas.List.Edits.{sets};
ghost use Rattle.model.specs.Table.{port_at};
ghost use Rattle.text.specs.Text as Text;
ghost use Rattle.text.specs.Parts as Parts;
ghost use Rattle.listing.specs.Feed as Feed;
ghost use Rattle.listing.specs.Turn as Turn;

use crate::{Fed, Run};
use answers::{Costs, number};
use lines::{Act, Part, Stage, reading};
use lock::{events, orders};
use model::{Answer, Shared, Table};
use text::{LONGEST, Row};

// A run before its first byte.
#[tactic(auto, unfolding(crate::specs::Feed::starting))]
pub fn start() -> Run
    ensures { result ≡ Feed.starting }
{
    Run {
        table: events::fresh(1).table,
        number: 0,
        part: Part::Nothing,
        stage: Stage::Opening,
    }
}

// The point of a port.
// Stays 0 where the table has no room for it: definition port_at has it so, and a row is a row of numbers.
fn point_at(table: &Table, port: u64) -> u64
    ensures { result ≡ (port_at table.now port).point }
{
    table.ports.get(port as usize).map_or(0, |p| p.point as u64)
}

// What a line prints of an order that comes to `paid`.
fn row(
    line: u64,
    letter: u8,
    port: u64,
    paid: Result<Costs, Answer>,
    point: u64,
    shared: Shared,
) -> Row
    ensures { result ≡ Turn.row_of line letter port paid point shared }
{
    let (answer, costs) = match paid {
        Ok(costs) => (0, costs),
        Err(answer) => (number(answer), Costs::FREE),
    };
    Row {
        number: line,
        port,
        answer,
        point,
        cached: costs.cached as u64,
        distributed: costs.distributed as u64,
        shared,
        letter,
    }
}

// What a run does with a byte. What that prints is put into `out` from a place on, where there is room for the longest line; gives the place after it.
fn take(run: &mut Run, b: u8, out: &mut [u8], at: usize) -> usize
    ensures run_after { run.new ≡ (Turn.after run.old b).0 }
    ensures value { result ≡ at + length (Parts.fitting (length out.old) at (Turn.after run.old b).1) }
    ensures out_after { out.new ≡ sets out.old at (Parts.fitting (length out.old) at (Turn.after run.old b).1) }
    ensures upper_bound { result ≤ at + Text.longest }
{
    match reading::act(run.stage, run.part, b) {
        Act::Keep(part) => {
            run.part = part;
            at
        }
        Act::Open(d) => {
            *run = Run {
                table: events::fresh(d).table,
                number: 1,
                part: Part::Nothing,
                stage: Stage::Running,
            };
            at
        }
        Act::Order {
            letter,
            event,
            port,
        } => {
            let paid = orders::order(&mut run.table, port, event);
            let point = point_at(&run.table, port);
            let row = row(run.number, letter, port, paid, point, run.table.shared);
            run.number = run.number.wrapping_add(1);
            run.part = Part::Nothing;
            text::put_row(out, at, row)
        }
        Act::Bad => {
            run.stage = Stage::Over;
            text::put_bad(out, at, run.number)
        }
    }
}

// Takes bytes of a piece of input, and puts what they print at the start of `out`, until the piece is used up, there is no room for another longest line,
// or the run is at its end.
pub fn feed(run: Run, input: &[u8], out: &mut [u8]) -> Fed
    ensures value { result ≡ (Feed.feeding (length out.old) run input.now).0 }
    ensures out_after { out.new ≡ sets out.old 0 (Feed.feeding (length out.old) run input.now).1 }
    ensures taken_in_bounds { (result.taken ≤ length input.now) × (result.written ≤ length out.old) }
{
    let mut run = run;
    let mut written: usize = 0;
    for (taken, b) in input.iter().enumerate() {
        if out.len() - written < LONGEST || !reading::live(run.stage) {
            return Fed {
                run,
                taken,
                written,
            };
        }
        written = take(&mut run, *b, out, written);
    }
    Fed {
        run,
        taken: input.len(),
        written,
    }
}

// What the end of the input prints, put at the start of `out`; gives its length.
#[tactic(auto, unfolding(crate::specs::Feed::ended))]
pub fn finish(run: Run, out: &mut [u8; LONGEST]) -> usize
    ensures value { result ≡ length (Feed.ended run) }
    ensures out_after { out.new ≡ sets out.old 0 (Feed.ended run) }
    ensures upper_bound { result ≤ Text.longest }
{
    if reading::cut_off(run.stage, run.part) {
        return text::put_bad(out, 0, run.number);
    }
    0
}
