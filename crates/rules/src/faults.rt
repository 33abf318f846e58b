// What is bad in a table: of the rules that fail, the one whose field has the lowest place. It is looked for only where a test of a record fails.
ghost use Rattle.std.specs.Prelude.{◌≡◌, true, cond, ◌+◌, ◌*◌, ◌≤◌, drop};
ghost use mathlib.Core.List.{foldl};
ghost use Rattle.model.specs.Table.{size_good};
ghost use Rattle.model.specs.Layout.{set_width, port_place, copies_place};
ghost use Rattle.model.specs.Good as Good;
ghost use Rattle.rules.specs.Faults.{spin_fault};
ghost use Rattle.rules.specs.Found.{found};

use crate::good;
use model::{Copies, Fault, Port, ROOM, Shared, Table};
use points::places;

// Past every image: nothing is bad.
// Stays a place beside the Option of `bad_in`: what is bad is looked for from it down (definitions Good.lower and Good.nowhere of model).
pub const NOWHERE: u16 = 65535;

// A rule: whether it holds, and what is bad where it doesn't.
// Stays a pair: definition Good.Rule, and the lists of rules are of these.
type Rule = (bool, Fault);

// What is bad so far, or the field of a rule that fails, if its place is lower.
#[tactic(auto, unfolding(model::specs::Good::lower))]
fn lower(f: Fault, ok: bool, x: Fault) -> Fault
    ensures { result ≡ Good.lower f (ok, x) }
{
    if ok | (f.place <= x.place) {
        return f;
    }
    x
}

// What is bad after a list of rules.
fn lowest(f: Fault, rules: &[Rule]) -> Fault
    ensures { result ≡ foldl Good.lower f rules.now }
{
    rules.iter().fold(f, |f, rule| lower(f, rule.0, rule.1))
}

// A field of what all share, and one of port k, with so many bytes of the record before it.
// Stay a function for each place, with the bound in its contract: no plainer as one, which would be told the place (definitions shared_field .. copies_field).
fn shared_field(d: u8, before: u16) -> Fault
    requires { before ≤ 15 }
    ensures { result ≡ Good.fault 1 d (14 + before) }
{
    Fault {
        kind: 1,
        port: d,
        place: 14 + before,
    }
}

fn port_field(kind: u8, k: u8, before: u16) -> Fault
    requires { before ≤ 15 }
    ensures { result ≡ Good.fault kind k (port_place k + before) }
{
    Fault {
        kind,
        port: k,
        place: layout::port_place(k) as u16 + before,
    }
}

// Made of port j, if that stands after the field of port k that a spin number stands in.
#[tactic(auto, unfolding(crate::specs::Faults::spin_fault))]
fn spin_field(k: u8, j: u8, before: u16) -> Fault
    requires { before ≤ 15 }
    ensures { result ≡ spin_fault k j before }
{
    if k < j {
        return port_field(2, j, 4);
    }
    port_field(3, k, before)
}

// A copy set that all share, and one of port k, with so many sets of the record before it.
fn copied_field(d: u8, before: u16) -> Fault
    requires { before ≤ 2 }
    ensures { result ≡ Good.fault 4 d (port_place d + before * set_width d) }
{
    let at = layout::port_place(d) + (before as usize) * layout::set_width(d);
    Fault {
        kind: 4,
        port: d,
        place: at as u16,
    }
}

fn copies_field(d: u8, k: u8, before: u16) -> Fault
    requires { before ≤ 2 }
    ensures { result ≡ Good.fault 4 k (copies_place d k + before * set_width d) }
{
    let at = layout::copies_place(d, k) + (before as usize) * layout::set_width(d);
    Fault {
        kind: 4,
        port: k,
        place: at as u16,
    }
}

// A spin number of port j, at most its made where there is such a port.
#[tactic(auto, unfolding(model::specs::Good::spin_good))]
fn spin_good(d: u64, j: u8, n: u16, made: u16) -> bool
    ensures { result ≡ Good.spin_good d j n made }
{
    !(u64::from(j) < d) | (n <= made)
}

// The rules for what all share, after those for the table as a whole, with made of the word's owner, where D is in range.
fn shared_rules(s: Shared, ownermade: u16) -> [Rule; 6]
    requires { s.d ≤ 64 }
    ensures { result ≡ drop 2 (Good.shared_rules true s ownermade) }
{
    let d = s.d as u8;
    let w = s.word;
    [
        (masks::within(s.d, s.active), shared_field(d, 0)),
        (w.taken <= 1, shared_field(d, 8)),
        (u64::from(w.owner) < s.d, shared_field(d, 9)),
        (
            spin_good(s.d, w.owner, w.spin, ownermade),
            port_field(2, w.owner, 4),
        ),
        (masks::within(s.d, s.activecopies), copied_field(d, 0)),
        (masks::within(s.d, s.wordcopies), copied_field(d, 1)),
    ]
}

// What is bad in the table as a whole and in what all share, with made of the word's owner; `empty` says that room above D is.
pub fn shared_fault(empty: bool, s: Shared, ownermade: u16) -> Fault
    ensures { result ≡ foldl Good.lower Good.nowhere (Good.shared_rules empty s ownermade) }
{
    if !(good::size_good(s.d) & empty) {
        return Fault::default();
    }
    let nowhere = Fault {
        place: NOWHERE,
        ..Fault::default()
    };
    lowest(nowhere, &shared_rules(s, ownermade))
}

// The rules for the fields of port k.
fn field_rules(active: u64, k: u8, p: Port) -> [Rule; 10]
    ensures { result ≡ Good.field_rules active k p }
{
    let n = p.point;
    let bit = masks::stands(active, u64::from(k));
    [
        (places::has(good::NAMED, n), port_field(2, k, 0)),
        (!(n == 6) | !bit, port_field(2, k, 0)),
        (!(n == 15) | bit, port_field(2, k, 0)),
        (p.status <= 3, port_field(2, k, 1)),
        (p.flag <= 1, port_field(2, k, 2)),
        (!(n == 0) | (p.flag == 0), port_field(2, k, 2)),
        (p.value <= 1, port_field(2, k, 3)),
        (p.made <= good::MOST, port_field(2, k, 4)),
        (!(p.made == 0) | (p.value == 0), port_field(2, k, 4)),
        (p.go <= p.made, port_field(2, k, 6)),
    ]
}

// The rules for the working values of port k, with made of its seen owner and of its candidate.
fn work_rules(d: u64, k: u8, p: Port, seenmade: u16, candidatemade: u16) -> [Rule; 11]
    ensures { result ≡ Good.work_rules d k p seenmade candidatemade }
{
    let n = p.point;
    let w = p.work;
    let own = places::has(places::OWN, n);
    let seen = places::has(places::SEEN, n);
    let candidate = places::has(places::CANDIDATE, n);
    let candidatespin = places::has(places::CANDIDATE_SPIN, n);
    let x5 = (n == 25) | (n == 35) | (n == 45);
    [
        (w.own <= p.made, port_field(3, k, 8)),
        (own | (w.own == 0), port_field(3, k, 8)),
        (u64::from(w.seenowner) < d, port_field(3, k, 10)),
        (seen | (w.seenowner == 0), port_field(3, k, 10)),
        (seen | (w.seenspin == 0), port_field(3, k, 11)),
        (!x5 | (0 < w.seenspin), port_field(3, k, 11)),
        (
            spin_good(d, w.seenowner, w.seenspin, seenmade),
            spin_field(k, w.seenowner, 11),
        ),
        (u64::from(w.candidate) < d, port_field(3, k, 13)),
        (candidate | (w.candidate == 0), port_field(3, k, 13)),
        (candidatespin | (w.candidatespin == 0), port_field(3, k, 14)),
        (
            spin_good(d, w.candidate, w.candidatespin, candidatemade),
            spin_field(k, w.candidate, 14),
        ),
    ]
}

// The rules for the copy sets of port k, where D is in range.
fn copy_rules(d: u64, k: u8, made: u16, c: Copies) -> [Rule; 4]
    requires { d ≤ 64 }
    ensures { result ≡ Good.copy_rules d k made c }
{
    let n = d as u8;
    [
        (masks::within(d, c.status), copies_field(n, k, 0)),
        (masks::within(d, c.go), copies_field(n, k, 1)),
        (masks::within(d, c.spin), copies_field(n, k, 2)),
        (!(made == 0) | (c.spin == 0), copies_field(n, k, 2)),
    ]
}

// What is bad after port k, with made of its seen owner and of its candidate; no port is looked at where D is out of range.
// Stay rules beside the tests of `good`: no plainer as one, since those are asked of each port, in groups and without a field.
#[tactic(auto, unfolding(model::specs::Table::size_good, model::specs::Table::room))]
pub fn port_fault(
    f: Fault,
    s: Shared,
    k: u8,
    p: Port,
    c: Copies,
    seenmade: u16,
    candidatemade: u16,
) -> Fault
    ensures { result ≡ cond (size_good s.d) (foldl Good.lower f (Good.port_rules s k p c seenmade candidatemade)) f }
{
    if !good::size_good(s.d) {
        return f;
    }
    let a = lowest(f, &field_rules(s.active, k, p));
    let b = lowest(a, &work_rules(s.d, k, p, seenmade, candidatemade));
    lowest(b, &copy_rules(s.d, k, p.made, c))
}

// The same apart from the check of good ports, which is faster without it.
#[inline(never)]
fn port_fault_apart(
    f: Fault,
    s: Shared,
    k: u8,
    p: Port,
    c: Copies,
    seenmade: u16,
    candidatemade: u16,
) -> Fault
    ensures { result ≡ cond (size_good s.d) (foldl Good.lower f (Good.port_rules s k p c seenmade candidatemade)) f }
{
    port_fault(f, s, k, p, c, seenmade, candidatemade)
}

// What is bad in a table, if anything is: each port is looked at, and then all that is kept above D.
#[tactic(auto, unfolding(model::specs::Table::room))]
pub fn bad_in(table: &Table) -> Option<Fault>
    ensures { result ≡ found (Good.bad_in table.now) }
{
    // Stay loops over numbers: no plainer, as a place stands in two arrays, and a port is looked at by its number and with two others.
    let s = table.shared;
    let n = good::ports(s.d);
    let mut rest: u64 = 0;
    for e in n..ROOM {
        rest |= good::joined(table.ports[e], table.copies[e]);
    }
    let o = good::slot(s.word.owner as u64);
    let mut bad = shared_fault(rest == 0, s, table.ports[o].made);
    for i in 0..n {
        let p = table.ports[i];
        let a = good::slot(p.work.seenowner as u64);
        let b = good::slot(p.work.candidate as u64);
        let c = table.copies[i];
        let x = table.ports[a].made;
        let y = table.ports[b].made;
        if !good::port_good(s, i as u64, p, c, x, y) {
            bad = port_fault_apart(bad, s, i as u8, p, c, x, y);
        }
    }
    if bad.place == NOWHERE {
        None
    } else {
        Some(bad)
    }
}
