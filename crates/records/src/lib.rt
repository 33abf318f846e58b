// The records of a table in the bytes of an image: each read and written at its place. A record that the bytes end before reads as 0, and isn't written.
// Stay zeros there, and the bytes beside D: each clause holds of any bytes and any D, also one that isn't theirs (definition Records.there).
#![tactic(auto)]

mod codec;

ghost use Rattle.std.specs.Prelude.{◌≡◌, ◌≤◌, ◌∷◌, [], get_or, replicate};
ghost use Rattle.model.specs.Bytes.{sum};
ghost use Rattle.model.specs.Layout as Layout;
ghost use Rattle.layout.specs.Places as Places;
ghost use Rattle.records.specs.Records as Records;

use layout::Form;
use model::{Copies, Port, Shared, Word};
use rules::good;

// D of the image, where length, version, D and contents are right.
#[tactic(auto, using(crate::specs::Laws::Head::comparing), unfolding(model::specs::Bytes::sum))]
pub fn ports_in(bytes: &[u8]) -> Option<u8>
    ensures { result ≡ Records.some_ports (Records.ports_in bytes.now) }
{
    if bytes.len() < layout::HEAD_SIZE {
        return None;
    }
    let v = codec::get_row(bytes, &layout::HEAD);
    let d = v[1];
    if !good::size_good(d) {
        return None;
    }
    let n = d as u8;
    if bytes.len() != layout::size(n) {
        return None;
    }
    let head = layout::head_values(n);
    if v == head { Some(n) } else { None }
}

// Byte 1: D, of an image.
// Stays 0 where there is no such byte: the clause promises it (get_or bytes.now 1 0).
pub fn d_in(bytes: &[u8]) -> u8
    ensures { result ≡ get_or bytes.now 1 0 }
{
    if bytes.len() <= 1 {
        return 0;
    }
    bytes[1]
}

// The record of port k.
#[tactic(auto, unfolding(model::specs::Bytes::sum))]
pub fn port_in(bytes: &[u8], k: u8) -> Port
    ensures { result ≡ Layout.port_of (Records.there Layout.port_widths (Layout.port_place k) bytes.now) }
{
    layout::port_of(codec::row_in(bytes, layout::port_place(k), &layout::PORT))
}

// The form of N copy sets in the image of d ports.
fn sets<const N: usize>(d: u8) -> Form<N>
    requires { N ≤ 3 }
    ensures { result.widths ≡ replicate N (Layout.set_width d) }
{
    let width = layout::set_width(d);
    Form {
        widths: [width; N],
        size: N * width,
    }
}

// N copy sets at a place in the image of d ports.
fn sets_in<const N: usize>(bytes: &[u8], d: u8, at: usize) -> [u64; N]
    requires { N ≤ 3 }
    ensures { result ≡ Records.filled N (Records.there (replicate N (Layout.set_width d)) at bytes.now) }
{
    codec::row_in(bytes, at, &sets(d))
}

// The copy sets of port k in the image of d ports.
#[tactic(auto, using(crate::specs::Laws::There::reading))]
pub fn copies_in(bytes: &[u8], d: u8, k: u8) -> Copies
    ensures { result ≡ Layout.copies_of (Records.there (Layout.copies_widths d) (Layout.copies_place d k) bytes.now) }
{
    layout::copies_of(sets_in(bytes, d, layout::copies_place(d, k)))
}

// The copy sets that all share.
#[tactic(auto, unfolding(model::specs::Layout::copied_widths))]
fn copied_in(bytes: &[u8], d: u8) -> [u64; 2]
    ensures { result ≡ Records.filled 2 (Records.there (Layout.copied_widths d) (Layout.port_place d) bytes.now) }
{
    sets_in(bytes, d, layout::port_place(d))
}

// What all ports share in the image of d ports: its record, and its copy sets after the ports.
#[tactic(auto, unfolding(model::specs::Bytes::sum))]
pub fn shared_in(bytes: &[u8], d: u8) -> Shared
    ensures { result ≡ Layout.shared_of d (Records.there Layout.shared_widths (sum Layout.head_widths) bytes.now) (Records.there (Layout.copied_widths d) (Layout.port_place d) bytes.now) }
{
    let v = codec::row_in(bytes, layout::HEAD_SIZE, &layout::SHARED);
    layout::shared_of(u64::from(d), v, copied_in(bytes, d))
}

// ACTIVE, and the lock word.
#[tactic(auto, unfolding(model::specs::Layout::shared_of))]
pub fn active_in(bytes: &[u8]) -> u64
    ensures { result ≡ get_or (Records.there Layout.shared_widths (sum Layout.head_widths) bytes.now) 0 0 }
{
    front_in(bytes).active
}

#[tactic(auto, unfolding(model::specs::Layout::shared_of))]
pub fn word_in(bytes: &[u8]) -> Word
    ensures { result ≡ (Layout.shared_of 0 (Records.there Layout.shared_widths (sum Layout.head_widths) bytes.now) []).word }
{
    front_in(bytes).word
}

// The record of what all share, without its copy sets.
#[tactic(auto, unfolding(model::specs::Bytes::sum))]
fn front_in(bytes: &[u8]) -> Shared
    ensures { result ≡ Layout.shared_of 0 (Records.there Layout.shared_widths (sum Layout.head_widths) bytes.now) [] }
{
    let front = codec::row_in(bytes, layout::HEAD_SIZE, &layout::SHARED);
    layout::shared_of(0, front, [0, 0])
}

// A copy set at a place in the image of d ports.
pub fn set_in(bytes: &[u8], d: u8, at: usize) -> u64
    ensures { result ≡ get_or (Records.there (Layout.set_width d ∷ []) at bytes.now) 0 0 }
{
    sets_in::<1>(bytes, d, at)[0]
}

// Puts the head of the image of d ports.
#[tactic(auto, unfolding(model::specs::Bytes::sum, model::specs::Layout::head_widths))]
pub fn put_head(image: &mut [u8], d: u8)
    ensures { image.new ≡ Records.put_at Layout.head_widths (Layout.head_values d) 0 image.old }
{
    codec::put_in(image, 0, &layout::HEAD, &layout::head_values(d));
}

// Puts the record of what all share, and its copy sets.
#[tactic(auto, unfolding(model::specs::Bytes::sum, model::specs::Layout::shared_widths, model::specs::Layout::head_widths))]
pub fn put_shared(image: &mut [u8], s: Shared)
    ensures { image.new ≡ Records.put_at Layout.shared_widths (Layout.shared_values s) (sum Layout.head_widths) image.old }
{
    codec::put_in(
        image,
        layout::HEAD_SIZE,
        &layout::SHARED,
        &layout::shared_values(s),
    );
}

#[tactic(auto, unfolding(model::specs::Layout::copied_widths))]
pub fn put_copied(image: &mut [u8], d: u8, s: Shared)
    ensures { image.new ≡ Records.put_at (Layout.copied_widths d) (Layout.copied_values s) (Layout.port_place d) image.old }
{
    codec::put_in(
        image,
        layout::port_place(d),
        &sets(d),
        &layout::copied_values(s),
    );
}

// Puts the record of port k, and its copy sets in the image of d ports.
#[tactic(auto, unfolding(model::specs::Bytes::sum, model::specs::Layout::port_widths))]
pub fn put_port(image: &mut [u8], k: u8, p: Port)
    ensures { image.new ≡ Records.put_at Layout.port_widths (Layout.port_values p) (Layout.port_place k) image.old }
{
    codec::put_in(
        image,
        layout::port_place(k),
        &layout::PORT,
        &layout::port_values(p),
    );
}

#[tactic(auto, unfolding(model::specs::Layout::copies_widths))]
pub fn put_copies(image: &mut [u8], d: u8, k: u8, c: Copies)
    ensures { image.new ≡ Records.put_at (Layout.copies_widths d) (Layout.copies_values c) (Layout.copies_place d k) image.old }
{
    codec::put_in(
        image,
        layout::copies_place(d, k),
        &sets(d),
        &layout::copies_values(c),
    );
}

// Puts the latest value of port k.
#[tactic(auto, unfolding(model::specs::Bytes::sum, layout::specs::Places::value_place))]
pub fn put_value(image: &mut [u8], k: u8, x: u8)
    ensures { image.new ≡ Records.put_at (1 ∷ []) (x ∷ []) (Places.value_place k) image.old }
{
    codec::put_in(
        image,
        layout::port_place(k) + layout::VALUE_AT,
        &layout::VALUE,
        &[u64::from(x)],
    );
}

// Puts ACTIVE, and the lock word.
#[tactic(auto, unfolding(model::specs::Bytes::sum, model::specs::Layout::head_widths))]
pub fn put_active(image: &mut [u8], a: u64)
    ensures { image.new ≡ Records.put_at (8 ∷ []) (a ∷ []) (sum Layout.head_widths) image.old }
{
    codec::put_in(image, layout::HEAD_SIZE, &layout::ACTIVE, &[a]);
}

#[tactic(auto, unfolding(model::specs::Bytes::sum, model::specs::Layout::head_widths, layout::specs::Places::word_place))]
pub fn put_word(image: &mut [u8], x: Word)
    ensures { image.new ≡ Records.put_at (1 ∷ 1 ∷ 2 ∷ []) (x.taken ∷ x.owner ∷ x.spin ∷ []) (Places.word_place) image.old }
{
    let v = [u64::from(x.taken), u64::from(x.owner), u64::from(x.spin)];
    codec::put_in(
        image,
        layout::HEAD_SIZE + layout::WORD_AT,
        &layout::WORD,
        &v,
    );
}

// Puts a copy set at a place in the image of d ports.
pub fn put_set(image: &mut [u8], d: u8, at: usize, m: u64)
    ensures { image.new ≡ Records.put_at (Layout.set_width d ∷ []) (m ∷ []) at image.old }
{
    codec::put_in(image, at, &sets(d), &[m]);
}
