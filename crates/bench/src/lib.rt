// The engine as a measurement calls it: orders from a fresh table, each by its own event, or all in one run. Both give the same answers.
#![tactic(auto)]

ghost use Rattle.std.specs.Prelude.{◌≡◌, ◌+◌, ◌*◌, ◌≤◌};
ghost use Rattle.model.specs.Event as Event;
ghost use Rattle.model.specs.Run as Run;

use lock::{events, runs};
use model::Answer;

// An answer and both costs in one number.
// Stays beside `answers::code`: no plainer, as that takes a Result, and an Outcome has both costs beside its answer.
fn code(answer: Answer, cached: u64, distributed: u64) -> u64
    requires { (cached ≤ 1) × (distributed ≤ 1) }
    ensures { result ≡ Event.number_of answer + 256 * cached + 65536 * distributed }
{
    answers::number(answer) + 256 * cached + 65536 * distributed
}

#[unsafe(no_mangle)]
pub extern "C" fn bench_events(d: u64, orders: &[u64], answers: &mut [u64]) -> u64
    ensures value { result ≡ Event.number_of (Event.fresh d).answer }
    ensures answers_after { answers.new ≡ Run.run_answers (Event.fresh d).table (Run.orders_for orders.now answers.old) answers.old }
{
    let made = events::fresh(d);
    let mut table = made.table;
    let n = (orders.len() / 2).min(answers.len());

    // Stays an index: after a loop over a zip of iter_mut a proof knows no answer that was written (tried in cabi's yarvelow_run).
    for i in 0..n {
        let o = events::event(table, orders[2 * i], orders[2 * i + 1]);
        answers[i] = code(o.answer, o.cached, o.distributed);
        table = o.table;
    }
    answers::number(made.answer)
}

#[unsafe(no_mangle)]
pub extern "C" fn bench_run(d: u64, orders: &[u64], answers: &mut [u64]) -> u64
    ensures value { result ≡ Event.number_of (Event.fresh d).answer }
    ensures answers_after { answers.new ≡ Run.run_answers (Event.fresh d).table (Run.orders_for orders.now answers.old) answers.old }
{
    let start = events::fresh(d);
    runs::run(start.table, orders, answers);
    answers::number(start.answer)
}
