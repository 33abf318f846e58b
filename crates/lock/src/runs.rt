// Runs: orders carried out on one table, with one check of the table at the start.
ghost use Rattle.std.specs.Prelude.{◌≡◌};
ghost use Rattle.model.specs.Run as Run;

use crate::orders;
use model::{Answer, Made, Table};
use rules::faults;

// Carries out orders on any table, with one check of it: as many as there are pairs of port and event and places for their answers. answers[i] is what order
// i answers: its number, 256 times its cached and 65,536 times its distributed cost. A bad table is refused, and nothing is changed.
pub fn run(mut table: Table, orders: &[u64], answers: &mut [u64]) -> Made
    ensures value { result ≡ Run.run table (Run.orders_for orders.now answers.old) }
    ensures answers_after { answers.new ≡ Run.run_answers table (Run.orders_for orders.now answers.old) answers.old }
{
    let bad = faults::bad_in(&table);
    let sound = bad.is_none();
    if sound {
        // Stays a loop over numbers: tried with `chunks_exact(2).zip(answers)`, and the proof of `run` doesn't close.
        let n = (orders.len() / 2).min(answers.len());
        for i in 0..n {
            answers[i] = orders::turn(&mut table, orders[2 * i], orders[2 * i + 1]);
        }
    }
    Made {
        table,
        answer: match bad {
            Some(bad) => Answer::BadTable(bad),
            None => Answer::Done,
        },
    }
}
