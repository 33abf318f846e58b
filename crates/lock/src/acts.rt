// What a step changes, on what its port can see.
ghost use Rattle.std.specs.Prelude.{◌≡◌, cond};
ghost use Rattle.model.specs.Step.{with_value};
ghost use Rattle.model.specs.Parts.Moves as Moves;

use crate::steps;
use model::{Move, Port, View};
use rules::good;

// A step can be made from what it sees.
#[tactic(auto, unfolding(model::specs::Parts::Moves::sees, model::specs::Table::most))]
fn sees(v: View) -> bool
    ensures { result ≡ Moves.sees v }
{
    (v.d <= 64)
        & (v.k < v.d)
        & ((v.own.work.seenowner as u64) < v.d)
        & masks::within(v.d, v.active)
        & (!(v.own.point == 4) | (v.own.made < good::MOST))
}

// What a step changes; nothing where it can't be made.
#[tactic(auto, unfolding(model::specs::Parts::Moves::tried))]
pub fn tried(v: View) -> Move
    ensures { result ≡ Moves.tried v }
{
    if sees(v) {
        return steps::weighed(v);
    }
    steps::changed(v, v.own)
}

// A port whose latest spin is set to 1, or left as it is.
// Stays a flag beside the port: the clause names it.
pub fn marked(sets: bool, p: Port) -> Port
    ensures { result ≡ with_value (cond sets 1 p.value) p }
{
    Port {
        value: if sets { 1 } else { p.value },
        ..p
    }
}
