// A schedule's lines, read byte by byte.
ghost use Rattle.std.specs.Prelude.{◌≡◌};
ghost use Rattle.lines.specs.Letters.{told_event};
ghost use Rattle.lines.specs.Reading as Reading;

use crate::{Act, Part, Stage};
use answers::Event;
use rules::good;

// The event that a letter stands for.
fn event_of(letter: u8) -> Option<Event>
    ensures { result ≡ told_event letter }
{
    match letter {
        b'E' => Some(Event::Enter),
        b'S' => Some(Event::Step),
        b'X' => Some(Event::Crash),
        b'A' => Some(Event::CallOff),
        b'L' => Some(Event::Leave),
        _ => None,
    }
}

// The first line, `D n` with n from 1 to the room, opens a table.
fn opening(letter: u8, n: u64) -> Act
    ensures { result ≡ Reading.line_act Stage.Opening letter n }
{
    if letter == b'D' && good::size_good(n) {
        return Act::Open(n);
    }
    Act::Bad
}

// Every other line orders an event.
#[tactic(auto, unfolding(crate::specs::Line::event_of))]
fn ordering(letter: u8, n: u64) -> Act
    ensures { result ≡ Reading.line_act Stage.Running letter n }
{
    match event_of(letter) {
        Some(event) => Act::Order {
            letter,
            event: event as u64,
            port: n,
        },
        None => Act::Bad,
    }
}

// What a run does at the end of a line.
fn line_act(stage: Stage, letter: u8, n: u64) -> Act
    ensures { result ≡ Reading.line_act stage letter n }
{
    match stage {
        Stage::Opening => opening(letter, n),
        Stage::Running => ordering(letter, n),
        Stage::Over => Act::Bad,
    }
}

// What a run does with a byte. A few bytes decide that a line is malformed, however long it is: a number goes on with a digit where it is neither 0 nor of
// three digits.
pub fn act(stage: Stage, part: Part, b: u8) -> Act
    ensures { result ≡ Reading.act stage part b }
{
    match part {
        Part::Nothing => match b {
            b'\n' => Act::Bad,
            _ => Act::Keep(Part::Letter(b)),
        },
        Part::Letter(l) => match b {
            b' ' => Act::Keep(Part::Space(l)),
            _ => Act::Bad,
        },
        Part::Space(l) => match b {
            b'0'..=b'9' => Act::Keep(Part::Number(l, (b - b'0') as u64)),
            _ => Act::Bad,
        },
        Part::Number(l, n) => match b {
            b'\n' => line_act(stage, l, n),
            b'0'..=b'9' if 0 < n && n < 100 => Act::Keep(Part::Number(
                l,
                10 * n + (b - b'0') as u64,
            )),
            _ => Act::Bad,
        },
    }
}

// The run is not at its end.
pub fn live(stage: Stage) -> bool
    ensures { result ≡ Reading.live stage }
{
    !matches!(stage, Stage::Over)
}

// The end of the input is malformed here: a line has begun, or the first is missing.
pub fn cut_off(stage: Stage, part: Part) -> bool
    ensures { result ≡ Reading.cut_off stage part }
{
    match stage {
        Stage::Opening => true,
        Stage::Running => !matches!(part, Part::Nothing),
        Stage::Over => false,
    }
}
