// What a touch costs in both models, and the copy sets after it. Port k's bit in a copy set is bit k round the 64 bits of a mask.
#![tactic(auto)]

ghost use Rattle.std.specs.Prelude.{◌≡◌, cond, ◌%◌};
ghost use Rattle.model.specs.Mask.{stands};
ghost use Rattle.model.specs.Table as Table;
ghost use Rattle.model.specs.Cost as Cost;
ghost use Rattle.model.specs.Parts.Charges as Charges;

use model::{Cell, Charge, Copies, Fee, Kind, Port, Shared, Touch, Work};

// The port that a word belongs to, as port k touches it; ACTIVE and the lock word count with k.
pub fn home(cell: Cell, k: u64, w: Work) -> u64
    ensures { result ≡ Charges.home cell k w }
{
    match cell {
        Cell::CandidateGo => w.candidate as u64,
        Cell::SeenSpin => w.seenowner as u64,
        Cell::Nothing | Cell::Status | Cell::Go | Cell::Spin | Cell::Active | Cell::Lock => k,
    }
}

// 0 for a word that is local to port k, else 1.
fn remote(owner: u8, k: u64) -> u64
    ensures { result ≡ Cost.remote owner k }
{
    if owner as u64 == k { 0 } else { 1 }
}

fn distributed(cell: Cell, k: u64, w: Work) -> u64
    ensures { result ≡ Charges.distributed cell k w }
{
    match cell {
        Cell::Nothing | Cell::Status | Cell::Go | Cell::Spin => 0,
        Cell::Active | Cell::Lock => 1,
        Cell::CandidateGo => remote(w.candidate, k),
        Cell::SeenSpin => remote(w.seenowner, k),
    }
}

// Spin n of a port is its latest.
pub fn latest(p: Port, n: u16) -> bool
    ensures { result ≡ Table.latest p n }
{
    (n == p.made) & (p.made != 0)
}

// The word is a spin that isn't the latest of its port, q.
fn old(cell: Cell, w: Work, q: Port) -> bool
    ensures { result ≡ Charges.old cell w q }
{
    match cell {
        Cell::Spin => !latest(q, w.own),
        Cell::SeenSpin => !latest(q, w.seenspin),
        Cell::Nothing | Cell::Status | Cell::Go | Cell::Active | Cell::Lock | Cell::CandidateGo => {
            false
        }
    }
}

// The ports with a current copy of the word.
fn holders(cell: Cell, s: Shared, c: Copies) -> u64
    ensures { result ≡ Charges.holders cell s c }
{
    match cell {
        Cell::Nothing => 0,
        Cell::Status => c.status,
        Cell::Go | Cell::CandidateGo => c.go,
        Cell::Spin | Cell::SeenSpin => c.spin,
        Cell::Active => s.activecopies,
        Cell::Lock => s.wordcopies,
    }
}

// 0 for a read by a port that has a copy, else 1.
fn missed(m: u64, k: u64) -> u64
    ensures { result ≡ cond (stands m (k % 64)) 0 1 }
{
    if masks::stands(m, k % 64) { 0 } else { 1 }
}

fn cached(kind: Kind, k: u64, m: u64) -> u64
    ensures { result ≡ Charges.cached kind (k % 64) m }
{
    match kind {
        Kind::Nothing => 0,
        Kind::Read => missed(m, k),
        Kind::Write | Kind::Add | Kind::Swap => 1,
    }
}

fn copied(kind: Kind, k: u64, m: u64) -> u64
    ensures { result ≡ Charges.copied kind (k % 64) m }
{
    match kind {
        Kind::Nothing => m,
        Kind::Read => masks::joined(m, k),
        Kind::Write | Kind::Add | Kind::Swap => masks::alone(k),
    }
}

// The copy sets with m for the word's.
fn put_shared(cell: Cell, m: u64, s: Shared) -> Shared
    ensures { result ≡ Charges.put_shared cell m s }
{
    match cell {
        Cell::Active => Shared {
            activecopies: m,
            ..s
        },
        Cell::Lock => Shared { wordcopies: m, ..s },
        Cell::Nothing | Cell::Status | Cell::Go | Cell::Spin | Cell::CandidateGo | Cell::SeenSpin =>
            s,
    }
}

fn put_copies(cell: Cell, m: u64, c: Copies) -> Copies
    ensures { result ≡ Charges.put_copies cell m c }
{
    match cell {
        Cell::Status => Copies { status: m, ..c },
        Cell::Go | Cell::CandidateGo => Copies { go: m, ..c },
        Cell::Spin | Cell::SeenSpin => Copies { spin: m, ..c },
        Cell::Nothing | Cell::Active | Cell::Lock => c,
    }
}

// What a touch by port k costs, and the ports with a copy of the word after it; q is the port that the word belongs to, and m the set before.
// Stays k, w and q apart, as in `charge`: no plainer as a struct, which would be made for one call and opened in it.
#[tactic(auto, unfolding(model::specs::Parts::Charges::fee_of))]
pub fn fee(u: Touch, k: u64, w: Work, q: Port, m: u64) -> Fee
    ensures { result ≡ Charges.fee_of u (k % 64) w q m }
{
    let Touch { cell, kind } = u;
    let apart = distributed(cell, k % 64, w);
    if old(cell, w, q) {
        return Fee {
            set: m,
            cached: 1,
            distributed: apart,
        };
    }
    Fee {
        set: copied(kind, k, m),
        cached: cached(kind, k, m),
        distributed: apart,
    }
}

// The same from all copy sets: what all share, and c, those of port q. Inlined: both come in and go out by value.
#[inline(always)]
pub fn charge(u: Touch, k: u64, w: Work, q: Port, s: Shared, c: Copies) -> Charge
    ensures { result ≡ Charges.charge u (k % 64) w q s c }
{
    let cell = u.cell;
    let f = fee(u, k, w, q, holders(cell, s, c));
    Charge {
        shared: put_shared(cell, f.set, s),
        copies: put_copies(cell, f.set, c),
        cached: f.cached,
        distributed: f.distributed,
    }
}
