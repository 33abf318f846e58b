// Good tables: a test for each rule of document 01, over what one port holds and a few numbers.
ghost use Rattle.std.specs.Prelude.{◌≡◌, ◌≤◌, ◌<◌};
ghost use Rattle.std.specs.Int.Bits.{bit_or};
ghost use Rattle.model.specs.Table.{room, size_good};
ghost use Rattle.model.specs.Parts.Good as Good;
ghost use Rattle.model.specs.Parts.Rules as Rules;

use model::{Copies, Port, ROOM, Shared, Work};
use points::places;

// Bit n stands where n is a point.
pub const NAMED: u64 = 127 | 4095 << 8 | 63 << 20 | 63 << 30 | 63 << 40;

// The most spins that a port makes.
pub const MOST: u16 = 65535;

// D is 1 to the room.
#[tactic(auto, unfolding(model::specs::Table::size_good, model::specs::Table::room))]
pub fn size_good(d: u64) -> bool
    ensures { result ≡ size_good d }
{
    (1 <= d) & (d <= ROOM as u64)
}

// What all share, with made of the word's owner.
#[tactic(auto, unfolding(model::specs::Parts::Good::shared_good))]
pub fn shared_good(s: Shared, ownermade: u16) -> bool
    ensures { result ≡ Good.shared_good s ownermade }
{
    let d = s.d;
    (s.word.taken <= 1)
        & masks::within(d, s.active)
        & masks::within(d, s.activecopies)
        & masks::within(d, s.wordcopies)
        & (u64::from(s.word.owner) < d)
        & (s.word.spin <= ownermade)
}

// The fields of port k.
#[tactic(auto, unfolding(model::specs::Parts::Good::fields_good, model::specs::Table::most))]
fn fields_good(active: u64, k: u64, p: Port) -> bool
    ensures { result ≡ Good.fields_good active k p }
{
    if !places::has(NAMED, p.point) {
        return false;
    }
    if p.made < p.go {
        return false;
    }
    let bit = masks::stands(active, k);
    (p.status <= 3)
        & (p.flag <= 1)
        & (p.value <= 1)
        & (p.made <= MOST)
        & (!(p.point == 0) | (p.flag == 0))
        & (!(p.point == 6) | !bit)
        & (!(p.point == 15) | bit)
        & (!(p.made == 0) | (p.value == 0))
}

// The copy sets of a port that has made so many spins.
#[tactic(auto, unfolding(model::specs::Parts::Good::copies_good))]
fn copies_good(d: u64, made: u16, c: Copies) -> bool
    ensures { result ≡ Good.copies_good d made c }
{
    masks::within(d, c.status)
        & masks::within(d, c.go)
        & masks::within(d, c.spin)
        & (!(made == 0) | (c.spin == 0))
}

// The rules for port k that look at no other port: fields, copy sets, own spin.
#[tactic(auto, unfolding(model::specs::Parts::Rules::own_tests))]
pub fn own_good(s: Shared, k: u64, p: Port, c: Copies) -> bool
    ensures { result ≡ Rules.own_tests s k p c }
{
    let own = p.work.own;
    if !fields_good(s.active, k, p) {
        return false;
    }
    if !copies_good(s.d, p.made, c) {
        return false;
    }
    if p.made < own {
        return false;
    }
    places::has(places::OWN, p.point) | (own == 0)
}

// What a port has seen, at a point without a place for it.
pub fn unseen_good(d: u64, w: Work) -> bool
    ensures { result ≡ Rules.unseen_tests d w }
{
    (0 < d) & ((w.seenowner | w.candidate) == 0) & ((w.seenspin | w.candidatespin) == 0)
}

// What a port has seen, at the other points, with made of its seen owner and of its candidate.
pub fn seen_good(d: u64, point: u8, seenmade: u16, candidatemade: u16, w: Work) -> bool
    ensures { result ≡ Rules.seen_tests d point seenmade candidatemade w }
{
    (u64::from(w.seenowner) < d)
        & (u64::from(w.candidate) < d)
        & (w.seenspin <= seenmade)
        & (w.candidatespin <= candidatemade)
        & (!((point == 25) | (point == 35) | (point == 45)) | (0 < w.seenspin))
        & (places::has(places::CANDIDATE, point) | (w.candidate == 0))
        & (places::has(places::CANDIDATE_SPIN, point) | (w.candidatespin == 0))
}

// All rules for port k, with made of its seen owner and of its candidate.
// Stays with two numbers at the end, as in `faults`: no plainer, since a struct would be made anew for each port, and each rule reads one of them.
#[tactic(auto, unfolding(model::specs::Parts::Rules::port_tests))]
pub fn port_good(s: Shared, k: u64, p: Port, c: Copies, seenmade: u16, candidatemade: u16) -> bool
    ensures { result ≡ Rules.port_tests s k p c seenmade candidatemade }
{
    if !own_good(s, k, p, c) {
        return false;
    }
    if !places::has(places::SEEN, p.point) {
        return unseen_good(s.d, p.work);
    }
    seen_good(s.d, p.point, seenmade, candidatemade, p.work)
}

// The fields of a port of one byte, and those of two, joined bit by bit.
fn joined_bytes(p: Port) -> u8
    ensures { result ≡ bit_or (bit_or (bit_or (bit_or (bit_or p.point p.status) p.flag) p.value) p.work.seenowner) p.work.candidate }
{
    p.point | p.status | p.flag | p.value | p.work.seenowner | p.work.candidate
}

fn joined_spins(p: Port) -> u16
    ensures { result ≡ bit_or (bit_or (bit_or (bit_or p.made p.go) p.work.own) p.work.seenspin) p.work.candidatespin }
{
    p.made | p.go | p.work.own | p.work.seenspin | p.work.candidatespin
}

// All that is kept for a port, joined bit by bit: 0 where each of it is.
#[tactic(auto, unfolding(model::specs::Parts::Rules::joined_port))]
pub fn joined(p: Port, c: Copies) -> u64
    ensures { result ≡ Rules.joined_port p c }
{
    c.status | c.go | c.spin | u64::from(joined_bytes(p)) | u64::from(joined_spins(p))
}

// How many ports are tested: D, or none where it is out of range.
// Stays 0 there, as in `slot`: definitions Rules.ports_of and slot_of have it so.
#[tactic(auto, unfolding(model::specs::Parts::Rules::ports_of, model::specs::Table::size_good, model::specs::Table::room))]
pub fn ports(d: u64) -> usize
    ensures value { result ≡ Rules.ports_of d }
    ensures upper_bound { result ≤ room }
{
    if size_good(d) { d as usize } else { 0 }
}

// The place of port k in a table; place 0 where a table has no room for it.
#[tactic(auto, unfolding(model::specs::Parts::Rules::slot_of, model::specs::Table::room))]
pub fn slot(k: u64) -> usize
    ensures value { result ≡ Rules.slot_of k }
    ensures upper_bound { result < room }
{
    if k < ROOM as u64 { k as usize } else { 0 }
}
