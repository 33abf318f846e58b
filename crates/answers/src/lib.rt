// Fresh tables, answers, and the events that are no step.
#![tactic(auto)]

ghost use Rattle.std.specs.Prelude.{◌≡◌};
ghost use Rattle.model.specs.Table.{fresh_table};
ghost use Rattle.model.specs.Event.{number_of, first_of, refusals};
ghost use Rattle.model.specs.Event as Events;
ghost use Rattle.model.specs.Paid.{paid_answer};
ghost use Rattle.model.specs.Paid as Paid;
ghost use Rattle.answers.specs.Numbered.{event_of};
ghost use Rattle.answers.specs.Verdict.{passed, code_of};

use model::{Answer, Copies, Fault, Made, Port, ROOM, Shared, Table, Work};
use rules::good;

// The events of document 01, section 'Events', by their numbers.
#[derive(Clone, Copy, PartialEq, Eq)]
pub enum Event {
    Enter = 1,
    Step = 2,
    Crash = 3,
    CallOff = 4,
    Leave = 5,
}

impl TryFrom<u64> for Event {
    type Error = Answer;

    ghost try_from_gives = { λ n r. r ≡ event_of n };

    fn try_from(number: u64) -> Result<Event, Answer> {
        match number {
            1 => Ok(Event::Enter),
            2 => Ok(Event::Step),
            3 => Ok(Event::Crash),
            4 => Ok(Event::CallOff),
            5 => Ok(Event::Leave),
            _ => Err(Answer::NoSuchEvent),
        }
    }
}

// What an order costs in both models.
#[derive(Clone, Copy)]
pub struct Costs {
    pub cached: u8,
    pub distributed: u8,
}

impl Costs {
    // Of an order that is no step, or is refused.
    pub const FREE: Costs = Costs {
        cached: 0,
        distributed: 0,
    };
}

// Document 01's number of an answer.
// Stays a number beside the enum: the C interface and the printed answers are such numbers (definition number_of).
pub fn number(answer: Answer) -> u64
    ensures { result ≡ number_of answer }
{
    match answer {
        Answer::Done => 0,
        Answer::BadTable(_) => 1,
        Answer::NoSuchPort => 2,
        Answer::NoSuchEvent => 3,
        Answer::Busy => 4,
        Answer::Worn => 5,
        Answer::NotInside => 6,
        Answer::Idle => 7,
        Answer::Inside => 8,
        Answer::BadSize => 9,
        Answer::ShortRoom => 10,
        Answer::BadImage => 11,
    }
}

// What goes with BAD TABLE, and the fault of the table as a whole with every other answer.
fn fault_in(answer: Answer) -> Fault
    ensures { result ≡ Events.fault_in answer }
{
    match answer {
        Answer::BadTable(fault) => fault,
        _ => Fault::default(),
    }
}

// What an order comes to, in one number: its costs from bits 8 and 16 on, or the number of its refusal with what is bad from bits 8, 16 and 24 on.
// Stays one number: the C interface and the places of a run hold such numbers (definition Run.code_of).
#[tactic(auto, unfolding(crate::specs::Verdict::code_of, model::specs::Event::answer_code))]
pub fn code(paid: Result<Costs, Answer>) -> u64
    ensures { result ≡ code_of paid }
{
    match paid {
        Ok(costs) => 256 * u64::from(costs.cached) + 65536 * u64::from(costs.distributed),
        Err(answer) => {
            let fault = fault_in(answer);
            number(answer)
                + 256 * u64::from(fault.kind)
                + 65536 * u64::from(fault.port)
                + 16777216 * u64::from(fault.place)
        }
    }
}

// The fresh table of d ports.
#[tactic(auto, unfolding(model::specs::Table::fresh_table, model::specs::Table::room))]
fn blank(d: u64) -> Table
    ensures { result ≡ fresh_table d }
{
    let ports = [Port::default(); ROOM];
    let copies = [Copies::default(); ROOM];
    let shared = Shared {
        d,
        ..Shared::default()
    };
    Table {
        ports,
        copies,
        shared,
    }
}

// The fresh table of D ports; D not 1 to the room is BAD SIZE with the fresh table of D = 1.
// Stays a Made and no Result: there is a table on refusal too (definition Event.fresh).
#[tactic(auto, unfolding(model::specs::Event::fresh))]
pub fn fresh(d: u64) -> Made
    ensures { result ≡ Events.fresh d }
{
    if good::size_good(d) {
        Made {
            table: blank(d),
            answer: Answer::Done,
        }
    } else {
        Made {
            table: blank(1),
            answer: Answer::BadSize,
        }
    }
}

// What an event answers at a port that there is: the lowest refusal that applies.
// Stays a number, as in `first` and `ordered`: a caller may give any, and one that is no event is refused (definition Event.refusals). A port's point stays a
// byte: a table holds any (definition Good.named).
#[tactic(auto, unfolding(crate::specs::Verdict::passed, model::specs::Event::first_of, model::specs::Event::refusals, model::specs::Table::most))]
pub fn refusal(event: u64, p: Port) -> Result<(), Answer>
    ensures { result ≡ passed (first_of (refusals event p)) }
{
    let point = p.point;
    match Event::try_from(event)? {
        Event::Enter => {
            if point != 0 {
                return Err(Answer::Busy);
            }
            if p.made == good::MOST {
                return Err(Answer::Worn);
            }
        }
        Event::Step => {
            if (point == 4) & (p.made == good::MOST) {
                return Err(Answer::Worn);
            }
            if point == 0 {
                return Err(Answer::Idle);
            }
            if point == 11 {
                return Err(Answer::Inside);
            }
        }
        Event::Crash | Event::CallOff => {
            if point == 0 {
                return Err(Answer::Idle);
            }
        }
        Event::Leave => {
            if point != 11 {
                return Err(Answer::NotInside);
            }
        }
    }
    Ok(())
}

// What a step needs of its port.
#[tactic(auto, unfolding(model::specs::Paid::placed, model::specs::Table::most))]
fn placed(d: u64, p: Port) -> bool
    ensures { result ≡ Paid.placed d p }
{
    ((p.work.seenowner as u64) < d) & ((p.work.candidate as u64) < d) & (p.made <= good::MOST)
}

// What an order answers before anything is changed, from what all share and its port.
#[tactic(auto, unfolding(crate::specs::Verdict::passed, model::specs::Event::first_of, model::specs::Paid::paid_answer))]
pub fn first(s: Shared, k: u64, event: u64, p: Port) -> Result<(), Answer>
    ensures { result ≡ passed (paid_answer s k event p) }
{
    let d = s.d;
    let bad = Answer::BadTable(Fault::default());
    if !(good::size_good(d) & masks::within(d, s.active)) {
        return Err(bad);
    }
    if d <= k {
        return Err(Answer::NoSuchPort);
    }
    if !placed(d, p) {
        return Err(bad);
    }
    refusal(event, p)
}

// A port after an event that is no step. A step and a number that is no event count as L: an order is refused before that.
#[tactic(auto, unfolding(model::specs::Event::ordered))]
pub fn ordered(event: u64, p: Port) -> Port
    ensures { result ≡ Events.ordered event p }
{
    match Event::try_from(event) {
        Ok(Event::Enter) => Port { point: 1, ..p },
        Ok(Event::Crash) => Port {
            point: 1,
            work: Work::default(),
            ..p
        },
        Ok(Event::CallOff) => Port { flag: 1, ..p },
        Ok(Event::Step) | Ok(Event::Leave) | Err(_) => Port { point: 13, ..p },
    }
}
