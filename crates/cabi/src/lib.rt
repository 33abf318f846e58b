// The engine for programs in C and Rust: events on images in lent buffers, with document 01's numbers. No call holds a table.
#![tactic(auto)]

mod acts;

ghost use Rattle.std.specs.Prelude.{◌≡◌, length, Ok};
ghost use Rattle.model.specs.Run.{orders_for};
ghost use Rattle.answers.specs.Verdict.{paid};
ghost use Rattle.image.specs.Image.{checked};
ghost use Rattle.cabi.specs.Calls as Calls;

use answers::Costs;
use image::{checking, writer};
use model::Answer;
use rules::good;

// Writes the image of a fresh table of d ports: number + 256 * length. Refused (9, then 10): the room is untouched, length 0.
#[tactic(auto, using(crate::specs::Laws::Fresh::d_fits))]
#[unsafe(no_mangle)]
pub extern "C" fn yarvelow_fresh(d: u64, room: &mut [u8]) -> u64
    ensures value { result ≡ Calls.fresh_call d (length room.old) }
    ensures room_after { room.new ≡ Calls.fresh_room d room.old }
{
    if !good::size_good(d) {
        return answers::number(Answer::BadSize);
    }
    match writer::blank(d, room) {
        Ok(length) => 256 * length as u64,
        Err(answer) => answers::number(answer),
    }
}

// The reader's answer to an image: 0, or why it is refused; for a bad table 1 + 256 * kind + 65536 * port + 16777216 * place.
#[unsafe(no_mangle)]
pub extern "C" fn yarvelow_check(image: &[u8]) -> u64
    ensures { result ≡ Calls.check_call image.now }
{
    match checking::check(image) {
        Ok(_) => 0,
        Err(answer) => answers::code(Err(answer)),
    }
}

// What an event on an image comes to: refused by the reader, then by the event, every byte is as it was.
#[tactic(auto, using(crate::specs::Laws::Calling::event_rules))]
fn event_in(image: &mut [u8], port: u64, event: u64) -> Result<Costs, Answer>
    ensures value { result ≡ paid (Calls.event_on image.old port event) }
    ensures image_after { image.new ≡ Calls.event_image image.old port event }
{
    // Stays a match where `?` would do: a wrong program turns one arm alone (docs/WRONG.md).
    match checking::check(image) {
        Ok(d) => acts::act_in(image, d, port, event),
        Err(answer) => Err(answer),
    }
}

// An event on an image, changed where it stands: number + 256 * cached + 65536 * distributed. Refused, by the reader and then by the event: every byte is as
// it was.
#[unsafe(no_mangle)]
pub extern "C" fn yarvelow_event(image: &mut [u8], port: u64, event: u64) -> u64
    ensures value { result ≡ Calls.event_call image.old port event }
    ensures image_after { image.new ≡ Calls.event_image image.old port event }
{
    answers::code(event_in(image, port, event))
}

// The same from one buffer into another: refused also for want of room, every byte of `next` is as it was.
#[tactic(auto, using(crate::specs::Laws::Calling::into_rules))]
fn event_into(image: &[u8], next: &mut [u8], port: u64, event: u64) -> Result<Costs, Answer>
    ensures value { result ≡ paid (Calls.into_on image.now (length next.old) port event) }
    ensures next_after { next.new ≡ Calls.into_next image.now next.old port event }
{
    let d = checking::check(image)?;
    acts::refusal_in(image, d, port, event)?;
    let n = image.len();
    if next.len() < n {
        return Err(Answer::ShortRoom);
    }
    let start = &mut next[..n];
    start.copy_from_slice(image);
    Ok(acts::carry_in(start, d, port as u8, event))
}

// The same from one buffer into another: `image` is only read, and done, `next` begins with the image after the event. Refused, by the reader, then by the
// event, then for want of room (10): every byte of `next` is as it was.
#[unsafe(no_mangle)]
pub extern "C" fn yarvelow_event_into(image: &[u8], next: &mut [u8], port: u64, event: u64) -> u64
    ensures value { result ≡ Calls.into_call image.now (length next.old) port event }
    ensures next_after { next.new ≡ Calls.into_next image.now next.old port event }
{
    answers::code(event_into(image, next, port, event))
}

// The orders of a run, on the image of d ports. Apart from the check, so that the stack that both need is the same.
#[inline(never)]
fn run_in(image: &mut [u8], d: u8, orders: &[u64], answers: &mut [u64])
    requires { Ok d ≡ checked image.old }
    ensures image_after { image.new ≡ Calls.calls_image image.old (orders_for orders.now answers.old) }
    ensures answers_after { answers.new ≡ Calls.run_places image.old (orders_for orders.now answers.old) answers.old }
{
    let n = (orders.len() / 2).min(answers.len());
    // Stays an index: after a loop over a zip of iter_mut a proof knows no answer that was written (tried: the proof of answers_after doesn't close).
    for i in 0..n {
        answers[i] = answers::code(acts::act_in(image, d, orders[2 * i], orders[2 * i + 1]));
    }
}

// As many events on an image as there are pairs of port and event and places for their answers, with one check of its table: answers[i] is what
// yarvelow_event would answer. Gives the reader's answer; refused, every byte of the image and every answer is as it was.
#[unsafe(no_mangle)]
pub extern "C" fn yarvelow_run(image: &mut [u8], orders: &[u64], answers: &mut [u64]) -> u64
    ensures value { result ≡ Calls.check_call image.old }
    ensures image_after { image.new ≡ Calls.calls_image image.old (orders_for orders.now answers.old) }
    ensures answers_after { answers.new ≡ Calls.run_places image.old (orders_for orders.now answers.old) answers.old }
{
    let d = match checking::check(image) {
        Ok(d) => d,
        Err(answer) => return answers::code(Err(answer)),
    };
    run_in(image, d, orders, answers);
    0
}
