// Document 01's lone passage: at D = 2 port 0 enters and makes 14 steps to be inside, leaves and makes 13 to be idle. Prints the steps, the cached and
// the distributed costs, and the point after, for each half.
#![tactic(auto)]

use answers::Event;
use lock::events;
use model::{Outcome, Table};
use std::io;

// A table, and what the steps that led to it cost.
#[derive(Clone, Copy)]
struct Passed {
    table: Table,
    cached: u64,
    distributed: u64,
}

// An event of port 0.
fn event(table: Table, event: Event) -> Outcome {
    events::event(table, 0, event as u64)
}

// n steps of port 0.
fn steps(table: Table, n: u64) -> Passed {
    let mut p = Passed {
        table,
        cached: 0,
        distributed: 0,
    };
    for _ in 0..n {
        let o = event(p.table, Event::Step);
        p = Passed {
            table: o.table,
            cached: p.cached.wrapping_add(o.cached),
            distributed: p.distributed.wrapping_add(o.distributed),
        };
    }
    p
}

fn print(rt: &impl Print, label: &str, n: u64, p: Passed) -> io::Result<()> {
    let cached = p.cached;
    let distributed = p.distributed;
    let point = p.table.ports[0].point;
    println!(rt; "{label}: {n} steps, cached {cached}, distributed {distributed}, point {point}")
}

fn main(rt: HostRuntime) -> io::Result<()> {
    let made = events::fresh(2);
    let entered = event(made.table, Event::Enter);
    let inside = steps(entered.table, 14);
    print(&rt, "in", 14, inside)?;
    let left = event(inside.table, Event::Leave);
    let home = steps(left.table, 13);
    print(&rt, "out", 13, home)
}
