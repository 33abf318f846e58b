// One order: on the records that it sees, and on a table.
ghost use Rattle.std.specs.Prelude.{◌≡◌, ◌<◌};
ghost use Rattle.model.specs.Event.{number_of};
ghost use Rattle.model.specs.Table.{port_at, copies_at};
ghost use Rattle.model.specs.Parts.Charges.{home};
ghost use Rattle.model.specs.Parts.Steps.{touch_of};
ghost use Rattle.model.specs.Parts.Rules.{slot_of};
ghost use Rattle.model.specs.Paid.{paid_answer, paid_event};
ghost use Rattle.answers.specs.Verdict.{paid, code_of};
ghost use Rattle.lock.specs.Parts as Parts;
ghost use Rattle.lock.specs.Sight.{Sight, joined};

use crate::{acts, steps};
use answers::{Costs, Event};
use model::{Answer, Copies, Port, Shared, Table, Touch, View};
use points::places;
use rules::good;

// What an order of a port sees: what its step would touch, what all share, the port's number and record, the record of the port that it would touch, and the
// copy sets of that one.
#[derive(Clone, Copy)]
pub struct Reach {
    pub touch: Touch,
    pub shared: Shared,
    pub port: u64,
    pub own: Port,
    pub touched: Port,
    pub copies: Copies,
}

// What an order leaves: its port's record, the copy sets of the port that it touched, what all share, whether that port's latest spin is set to 1, and what
// the order costs or why it is refused.
#[derive(Clone, Copy)]
pub struct Acted {
    pub own: Port,
    pub copies: Copies,
    pub shared: Shared,
    pub sets: bool,
    pub paid: Result<Costs, Answer>,
}

impl Reach {
    fn view(&self) -> View
        ensures { result ≡ Parts.view_on self.now.shared self.now.port self.now.own self.now.touched }
    {
        View {
            own: self.own,
            active: self.shared.active,
            d: self.shared.d,
            k: self.port,
            go: self.touched.go,
            word: self.shared.word,
        }
    }

    // All as it is, but for the port's own record.
    fn kept(&self, own: Port, paid: Result<Costs, Answer>) -> Acted
        ensures { result ≡ Parts.kept own self.now.shared self.now.copies paid }
    {
        Acted {
            own,
            copies: self.copies,
            shared: self.shared,
            sets: false,
            paid,
        }
    }

    // What a step leaves. Inlined, as all below it, so that an order hands no record on through the stack.
    #[inline(always)]
    fn stepped(&self) -> Acted
        requires { Sight (Parts.view_on self.now.shared self.now.port self.now.own self.now.touched) }
        ensures { result ≡ Parts.stepped_on self.now.touch self.now.shared self.now.port self.now.own self.now.touched self.now.copies }
    {
        let m = steps::step(self.view());
        let shared = Shared {
            active: m.active,
            word: m.word,
            ..self.shared
        };
        let copies = Copies {
            spin: if m.makes { 0 } else { self.copies.spin },
            ..self.copies
        };
        let x = costs::charge(
            self.touch,
            self.port,
            self.own.work,
            self.touched,
            shared,
            copies,
        );
        Acted {
            own: places::settled(m.own),
            copies: x.copies,
            shared: x.shared,
            sets: m.sets & costs::latest(self.touched, self.own.work.seenspin),
            paid: Ok(Costs {
                cached: x.cached as u8,
                distributed: x.distributed as u8,
            }),
        }
    }

    // What an event leaves that nothing refuses.
    #[inline(always)]
    fn carried(&self, event: u64) -> Acted
        requires { number_of (paid_answer self.now.shared self.now.port event self.now.own) ≡ 0 }
        ensures { result ≡ Parts.acted_on self.now.touch self.now.shared self.now.port event self.now.own self.now.touched self.now.copies }
    {
        // Stays a number: an order takes any number as its event (definition Paid.paid_event, clause of answers::ordered).
        if event == Event::Step as u64 {
            return self.stepped();
        }
        let own = answers::ordered(event, self.own);
        self.kept(own, Ok(Costs::FREE))
    }
}

// What any event leaves: refused, all is as it was.
#[tactic(auto, using(crate::specs::Acted::acting))]
pub fn act(reach: Reach, event: u64) -> Acted
    ensures { result ≡ Parts.acted_on reach.touch reach.shared reach.port event reach.own reach.touched reach.copies }
{
    match answers::first(reach.shared, reach.port, event, reach.own) {
        Ok(()) => reach.carried(event),
        Err(answer) => reach.kept(reach.own, Err(answer)),
    }
}

// The place of the port whose word the step of the port at place k would touch, and what an order of that port sees of a table.
#[tactic(auto, unfolding(model::specs::Parts::Steps::touch_of, model::specs::Table::room))]
fn reached(table: &Table, k: usize, port: u64) -> (usize, Reach)
    requires { k < 64 }
    ensures place { result.0 ≡ slot_of (home (touch_of table.now k).cell port (port_at table.now k).work) }
    ensures bound { result.0 < 64 }
    ensures touch { result.1.touch ≡ touch_of table.now k }
    ensures shared { result.1.shared ≡ table.now.shared }
    ensures port { result.1.port ≡ port }
    ensures own { result.1.own ≡ port_at table.now k }
    ensures touched { result.1.touched ≡ port_at table.now result.0 }
    ensures copies { result.1.copies ≡ copies_at table.now result.0 }
{
    let own = table.ports[k];
    let touch = places::touch_at(own.point);
    let j = good::slot(costs::home(touch.cell, port, own.work));
    let reach = Reach {
        touch,
        shared: table.shared,
        port,
        own,
        touched: table.ports[j],
        copies: table.copies[j],
    };
    (j, reach)
}

// Puts what an order leaves back at the places of its port and of the port that it touched.
fn put_back(table: &mut Table, k: usize, j: usize, left: Acted)
    requires { (k < 64) × (j < 64) }
    ensures { table.new ≡ joined table.old k j left }
{
    table.ports[k] = left.own;
    table.copies[j] = left.copies;
    table.shared = left.shared;
    table.ports[j] = acts::marked(left.sets, table.ports[j]);
}

// An order on a table whose check has been paid: its records are taken out of the table, and what it leaves is put back in their places. Apart from those that
// check the table, which need less stack without it.
#[tactic(auto, unfolding(model::specs::Table::room))]
#[inline(never)]
pub fn order(table: &mut Table, port: u64, event: u64) -> Result<Costs, Answer>
    ensures value { result ≡ paid (paid_event table.old port event) }
    ensures table_after { table.new ≡ (paid_event table.old port event).table }
{
    let k = good::slot(port);
    let (j, reach) = reached(table, k, port);
    let left = act(reach, event);
    let costs = left.paid?;
    put_back(table, k, j, left);
    Ok(costs)
}

// The same of an order of a run, in one number. Many of these may be refused, and then nothing is taken out of the table.
#[tactic(auto, unfolding(model::specs::Table::room))]
#[inline(always)]
pub(crate) fn turn(table: &mut Table, port: u64, event: u64) -> u64
    ensures value { result ≡ code_of (paid (paid_event table.old port event)) }
    ensures table_after { table.new ≡ (paid_event table.old port event).table }
{
    let k = good::slot(port);
    if let Err(answer) = answers::first(table.shared, port, event, table.ports[k]) {
        return answers::number(answer);
    }
    let (j, reach) = reached(table, k, port);
    let left = reach.carried(event);
    put_back(table, k, j, left);
    answers::code(left.paid)
}
