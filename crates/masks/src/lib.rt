// Sets of ports as masks of 64 bits: bit k belongs to port k. A port number above 63 is taken round the 64 bits, so that any is taken.
// Stays a u64: each clause holds of any number k, by `k % 64`, and a type of port numbers would ask more of callers.
#![tactic(auto)]

ghost use Rattle.std.specs.Prelude.{◌≡◌, ◌-◌, ◌%◌, ◌^◌, if◌then◌else◌, nat_eq};
ghost use Rattle.model.specs.Mask as Mask;
ghost use Rattle.model.specs.Ring as Ring;

// Bit k stands in m.
#[tactic(auto, unfolding(model::specs::Mask::stands))]
pub fn stands(m: u64, k: u64) -> bool
    ensures { result ≡ Mask.stands m k }
{
    k < 64 && (m >> k) % 2 == 1
}

// No bit at d or above stands in m.
#[tactic(auto, unfolding(model::specs::Mask::within))]
pub fn within(d: u64, m: u64) -> bool
    ensures { result ≡ Mask.within d m }
{
    d >= 64 || (m >> d) == 0
}

// The set of port k alone.
#[tactic(auto, unfolding(model::specs::Mask::alone))]
pub fn alone(k: u64) -> u64
    ensures { result ≡ Mask.alone (k % 64) }
{
    1 << (k % 64)
}

// The set m with port k in it.
pub fn joined(m: u64, k: u64) -> u64
    ensures { result ≡ Mask.joined m (k % 64) }
{
    m | alone(k)
}

// The fetch-and-add of bit k.
#[tactic(auto, unfolding(model::specs::Mask::alone, model::specs::Mask::added))]
pub fn bit_added(m: u64, k: u64) -> u64
    ensures { result ≡ Mask.added m (2 ^ (k % 64)) }
{
    m.wrapping_add(alone(k))
}

// The fetch-and-add of the complement of bit k.
pub fn bit_taken(m: u64, k: u64) -> u64
    ensures { result ≡ Mask.added m (2 ^ 64 - 2 ^ (k % 64)) }
{
    m.wrapping_add(alone(k).wrapping_neg())
}

// The first port after o whose bit stands in a, round the ring, o itself last: of the ports above o where there is one, else of all. 64 for a set that is empty.
// Stays 64 of a set that is empty, and no None: theorem next_one says so.
pub fn next(o: u64, a: u64) -> u64
    ensures { result ≡ (if nat_eq a 0 then 64 else Ring.next 64 (o % 64) a) }
{
    let from = o % 64;
    let above = (a >> from) >> 1;
    if above == 0 {
        u64::from(a.trailing_zeros())
    } else {
        from + 1 + u64::from(above.trailing_zeros())
    }
}
