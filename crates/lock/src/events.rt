// Fresh tables and events.
ghost use Rattle.std.specs.Prelude.{◌≡◌};
ghost use Rattle.model.specs.Event as Event;

use crate::orders;
use answers::Costs;
use model::{Answer, Made, Outcome, Table};
use rules::faults;

// The fresh table of D ports; D not 1 to the room is BAD SIZE with the fresh table of D = 1.
pub fn fresh(d: u64) -> Made
    ensures { result ≡ Event.fresh d }
{
    answers::fresh(d)
}

// An event on any table, at any port, of any number: a check of the table, and one order.
#[tactic(auto, using(crate::specs::Single::telling))]
pub fn event(mut table: Table, port: u64, event: u64) -> Outcome
    ensures { result ≡ Event.event table port event }
{
    let paid = match faults::bad_in(&table) {
        Some(bad) => Err(Answer::BadTable(bad)),
        None => orders::order(&mut table, port, event),
    };
    let (costs, answer) = match paid {
        Ok(costs) => (costs, Answer::Done),
        Err(answer) => (Costs::FREE, answer),
    };
    Outcome {
        table,
        cached: u64::from(costs.cached),
        distributed: u64::from(costs.distributed),
        answer,
    }
}
