// The check of an image where it stands: port by port, with no room for a table.
ghost use Rattle.std.specs.Prelude.{◌≡◌, ◌<◌};
ghost use mathlib.Core.List.{foldl};
ghost use Rattle.model.specs.declared.Table.{Table};
ghost use Rattle.model.specs.Table.{port_at};
ghost use Rattle.model.specs.Good.{good, lower, bad_in};
ghost use Rattle.model.specs.Parts.Good.{place_good};
ghost use Rattle.model.specs.Parts.Listed.{rules_at};
ghost use Rattle.records.specs.Records.{ports_in};
ghost use Rattle.image.specs.Image.{held, checked};

use model::{Answer, Fault, Shared};
use points::places;
use rules::{faults, good};
use std::marker::Model;

// The bytes of an image, the number of its ports, and what they all share: the table that the bytes stand for.
#[derive(Drop)]
struct Held<'a> {
    bytes: &'a [u8],
    d: u8,
    shared: Shared,
}

impl<'a> Model for Held<'a> {
    ghost Value = { Table };

    ghost view = { λ h. held h.d h.bytes.now };

    ghost invariant = { λ h. (0 < h.d) × (h.d ≡ ports_in h.bytes.now) × (h.shared ≡ (held h.d h.bytes.now).shared) };
}

impl Held<'_> {
    // Made of port j, where there is such a port.
    fn made(&self, j: u8) -> u16
        ensures { j < self.now.shared.d → result ≡ (port_at self.now j).made }
    {
        let p = records::port_in(self.bytes, j);
        p.made
    }

    // The rules for port k. Made of the ports that it has seen is looked at only where it has seen any.
    // Stays beside good::port_good: no plainer as one, since that is given made of both ports, and here it is read where a rule asks for it.
    fn port_sound(&self, k: u8) -> bool
        requires { k < self.now.shared.d }
        ensures { result ≡ place_good self.now k }
    {
        let s = self.shared;
        let p = records::port_in(self.bytes, k);
        let c = records::copies_in(self.bytes, self.d, k);
        if !good::own_good(s, k as u64, p, c) {
            return false;
        }
        let w = p.work;
        if !places::has(places::SEEN, p.point) {
            return good::unseen_good(s.d, w);
        }
        good::seen_good(
            s.d,
            p.point,
            self.made(w.seenowner),
            self.made(w.candidate),
            w,
        )
    }

    // The table is good.
    fn sound(&self) -> bool
        ensures { result ≡ good self.now }
    {
        let s = self.shared;
        let mut ok = good::shared_good(s, self.made(s.word.owner));
        for k in 0..self.d {
            ok &= self.port_sound(k);
        }
        ok
    }

    // What is bad after port k.
    fn port_bad(&self, bad: Fault, k: u8) -> Fault
        requires { k < self.now.shared.d }
        ensures { result ≡ foldl lower bad (rules_at self.now k) }
    {
        let p = records::port_in(self.bytes, k);
        faults::port_fault(
            bad,
            self.shared,
            k,
            p,
            records::copies_in(self.bytes, self.d, k),
            self.made(p.work.seenowner),
            self.made(p.work.candidate),
        )
    }

    // What is bad in the table. Inlined, so that it and the check share their stack.
    // Stays beside rules::faults::bad_in: there is no table here. Stays a Fault: definition Good.bad_in, asked of a bad table alone.
    #[inline(always)]
    fn bad_in(&self) -> Fault
        ensures { result ≡ bad_in self.now }
    {
        let s = self.shared;
        let mut bad = faults::shared_fault(true, s, self.made(s.word.owner));
        for k in 0..self.d {
            bad = self.port_bad(bad, k);
        }
        bad
    }
}

// D of an image that is accepted, else the reader's answer. What is bad is looked for in a second reading, so that the check of a good image is short.
#[tactic(auto, using(crate::proofs::Laws::Checking::checks_refused))]
pub fn check(bytes: &[u8]) -> Result<u8, Answer>
    ensures { result ≡ checked bytes.now }
{
    let Some(d) = records::ports_in(bytes) else {
        return Err(Answer::BadImage);
    };
    let image = Held {
        bytes,
        d,
        shared: records::shared_in(bytes, d),
    };
    if !image.sound() {
        return Err(Answer::BadTable(image.bad_in()));
    }
    Ok(records::d_in(bytes))
}
