// Numbers and records in bytes, little end first, at widths that the caller gives.
ghost use Rattle.std.specs.Prelude.{◌≡◌, ◌+◌, ◌≤◌, leb, length};
ghost use Rattle.std.proofs.lemmas.List.Edits.{sets};
ghost use Rattle.model.specs.Bytes.{little, value, sum, pack, unpack};
ghost use Rattle.records.specs.Records.{there, put_at, filled};

use layout::Form;

// Puts v in the bytes of a field: the compiler makes one store of two, and of eight.
// Stays cut by `%`, as in layout.
#[tactic(auto, using(crate::specs::Laws::Rows::putting))]
fn put(field: &mut [u8], v: u64)
    ensures { field.new ≡ little (length field.old) v }
{
    match field.len() {
        2 => field.copy_from_slice(&((v % 65536) as u16).to_le_bytes()),
        8 => field.copy_from_slice(&v.to_le_bytes()),
        _ => put_any(field, v),
    }
}

// The same, byte by byte.
#[tactic(auto, unfolding(model::specs::Bytes::little))]
fn put_any(field: &mut [u8], v: u64)
    ensures { field.new ≡ little (length field.old) v }
{
    let mut x = v;
    for b in field.iter_mut() {
        *b = (x % 256) as u8;
        x /= 256;
    }
}

// The number that the bytes of a field stand for: the compiler makes one load of two, and of eight.
fn get(field: &[u8]) -> u64
    requires { length field.now ≤ 8 }
    ensures { result ≡ value field.now }
{
    match field {
        [a, b] => u64::from(u16::from_le_bytes([*a, *b])),
        [a, b, c, d, e, f, g, h] => u64::from_le_bytes([*a, *b, *c, *d, *e, *f, *g, *h]),
        _ => get_any(field),
    }
}

// The same, byte by byte.
fn get_any(field: &[u8]) -> u64
    requires { length field.now ≤ 8 }
    ensures { result ≡ value field.now }
{
    let mut x = 0;
    for b in field.iter().rev() {
        x = u64::from(*b) + 256 * x;
    }
    x
}

// Puts a record at a place. Inlined, as all that goes over a record's fields, so that its widths are known and there is no loop.
// Stays a place that moves on: no plainer by split_at_mut, which would lend the room anew at each turn.
#[tactic(auto, unfolding(model::specs::Bytes::sum))]
#[inline(always)]
fn put_row<const N: usize>(room: &mut [u8], at: usize, widths: &[usize; N], values: &[u64; N])
    requires { at + sum widths.now ≤ length room.old }
    ensures { room.new ≡ sets room.old at (pack widths.now values.now) }
{
    let mut i = at;
    for (w, v) in widths.iter().zip(values) {
        put(&mut room[i..i + *w], *v);
        i += *w;
    }
}

// The values of the record that the bytes begin with.
#[tactic(auto, using(layout::specs::Widths::narrow_at))]
#[inline(always)]
pub fn get_row<const N: usize>(bytes: &[u8], form: &Form<N>) -> [u64; N]
    requires { sum form.now.widths ≤ length bytes.now }
    ensures { result ≡ unpack form.now.widths bytes.now }
{
    let mut values = [0; N];
    let mut rest = bytes;
    for (i, w) in form.widths.iter().enumerate() {
        let (field, after) = rest.split_at(*w);
        values[i] = get(field);
        rest = after;
    }
    values
}

// A record of so many bytes at a place lies within so many.
fn inside(bytes: usize, at: usize, long: usize) -> bool
    ensures { result ≡ leb (at + long) bytes }
{
    if bytes < long {
        return false;
    }
    at <= bytes - long
}

// The values of the record at a place; zeros where the bytes end before it.
#[tactic(auto, unfolding(crate::specs::Records::there, crate::specs::Records::filled))]
#[inline(always)]
pub fn row_in<const N: usize>(bytes: &[u8], at: usize, form: &Form<N>) -> [u64; N]
    ensures { result ≡ filled N (there form.now.widths at bytes.now) }
{
    if !inside(bytes.len(), at, form.size) {
        return [0; N];
    }
    get_row(&bytes[at..], form)
}

// Puts a record at a place; where the bytes end before it they stay as they are.
#[tactic(auto, unfolding(crate::specs::Records::put_at))]
#[inline(always)]
pub fn put_in<const N: usize>(room: &mut [u8], at: usize, form: &Form<N>, values: &[u64; N])
    ensures { room.new ≡ put_at form.now.widths values.now at room.old }
{
    if inside(room.len(), at, form.size) {
        put_row(room, at, &form.widths, values);
    }
}
