// Orders on an image whose table is good, where it stands: only the records that an order sees are read, and only the fields that it leaves are written.
ghost use Rattle.std.specs.Prelude.{◌≡◌, Ok};
ghost use Rattle.model.specs.Event as Events;
ghost use Rattle.answers.specs.Verdict.{passed, paid};
ghost use Rattle.image.specs.Image.{held, encode};
ghost use Rattle.cabi.specs.Laws.Acting.{Holds, Acts};

use answers::{Costs, Event};
use lock::acts;
use model::{Answer, Cell, Kind, View};
use points::places;

// Stays an image and its D as two parameters: no plainer as a struct, since event_into asks what refuses an order in a slice that it only reads, and carries
// the order out in another. Stay beside those of lock, on a table: no call holds one, which 8 KiB of stack have little room for.

// A step of port k that nothing refuses.
fn step_in(image: &mut [u8], d: u8, k: u8) -> Costs
    requires { Acts d image.old k 2 }
    ensures value { Ok result ≡ paid (Events.event (held d image.old) k 2) }
    ensures image_after { image.new ≡ encode (Events.event (held d image.old) k 2).table }
{
    let own = records::port_in(image, k);
    let u = places::touch_at(own.point);
    let cell = u.cell;
    let j = costs::home(cell, k as u64, own.work) as u8;
    let q = records::port_in(image, j);
    let at = layout::set_place(cell, d, j);
    let before = records::set_in(image, d, at);
    let m = acts::tried(View {
        own,
        active: records::active_in(image),
        d: d as u64,
        k: k as u64,
        go: q.go,
        word: records::word_in(image),
    });
    let f = costs::fee(u, k as u64, own.work, q, before);
    if m.makes {
        records::put_set(image, d, layout::set_place(Cell::Spin, d, j), 0);
    }
    records::put_set(image, d, at, f.set);
    records::put_port(image, k, places::settled(m.own));
    if m.sets & costs::latest(q, own.work.seenspin) {
        records::put_value(image, j, 1);
    }
    match u.kind {
        Kind::Add => records::put_active(image, m.active),
        Kind::Swap => records::put_word(image, m.word),
        Kind::Nothing | Kind::Read | Kind::Write => {}
    }
    Costs {
        cached: f.cached as u8,
        distributed: f.distributed as u8,
    }
}

// What refuses an order on the image of d ports: the lowest number.
pub fn refusal_in(image: &[u8], d: u8, port: u64, event: u64) -> Result<(), Answer>
    requires { Holds d image.now }
    ensures { result ≡ passed (Events.refusal (held d image.now) port event) }
{
    if (d as u64) <= port {
        return Err(Answer::NoSuchPort);
    }
    answers::refusal(event, records::port_in(image, port as u8))
}

// An order at port k of the image of d ports that nothing refuses.
pub fn carry_in(image: &mut [u8], d: u8, k: u8, event: u64) -> Costs
    requires { Acts d image.old k event }
    ensures value { Ok result ≡ paid (Events.event (held d image.old) k event) }
    ensures image_after { image.new ≡ encode (Events.event (held d image.old) k event).table }
{
    // Stays a number: an order takes any number as its event (clause of answers::ordered).
    if event == Event::Step as u64 {
        return step_in(image, d, k);
    }
    let left = answers::ordered(event, records::port_in(image, k));
    records::put_port(image, k, left);
    Costs::FREE
}

// Any order on the image of d ports.
#[tactic(auto, using(crate::specs::Laws::Acting::acting))]
pub fn act_in(image: &mut [u8], d: u8, port: u64, event: u64) -> Result<Costs, Answer>
    requires { Holds d image.old }
    ensures value { result ≡ paid (Events.event (held d image.old) port event) }
    ensures image_after { image.new ≡ encode (Events.event (held d image.old) port event).table }
{
    refusal_in(image, d, port, event)?;
    Ok(carry_in(image, d, port as u8, event))
}
