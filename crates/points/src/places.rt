// The tables by point: where each working value has its place, and which word a point touches and how.
ghost use Rattle.std.specs.Prelude.{◌≡◌, ◌&&◌, ltb, IsTrue, IsFalse};
ghost use Rattle.model.specs.Mask.{stands};
ghost use Rattle.model.specs.Points as Points;
ghost use Rattle.model.specs.Parts.Charges as Charges;

use model::{Cell, Kind, Port, Touch, Work};

// One past the highest point.
const POINTS: u8 = 46;

// Bit n stands where a working value has its place at point n.
pub const OWN: u64 = 1 << 5 | 1 << 6 | 7 << 8 | 1 << 17 | 63 << 20 | 63 << 30;

pub const SEEN: u64 = 46 << 20 | 46 << 30 | 46 << 40;

pub const CANDIDATE: u64 = 12 << 20 | 12 << 30 | 12 << 40;

pub const CANDIDATE_SPIN: u64 = 8 << 20 | 8 << 30 | 8 << 40;

// The ways in which a point touches a word.
// Stays a touch of nothing where an Option would have None: definition Charges.touch_at has it so.
const UNTOUCHED: Touch = Touch {
    cell: Cell::Nothing,
    kind: Kind::Nothing,
};

const READ_STATUS: Touch = Touch {
    cell: Cell::Status,
    kind: Kind::Read,
};

const READ_GO: Touch = Touch {
    cell: Cell::Go,
    kind: Kind::Read,
};

const WRITE_GO: Touch = Touch {
    cell: Cell::Go,
    kind: Kind::Write,
};

const READ_ACTIVE: Touch = Touch {
    cell: Cell::Active,
    kind: Kind::Read,
};

const ADD_ACTIVE: Touch = Touch {
    cell: Cell::Active,
    kind: Kind::Add,
};

const READ_SPIN: Touch = Touch {
    cell: Cell::Spin,
    kind: Kind::Read,
};

const WRITE_STATUS: Touch = Touch {
    cell: Cell::Status,
    kind: Kind::Write,
};

const SWAP_LOCK: Touch = Touch {
    cell: Cell::Lock,
    kind: Kind::Swap,
};

const READ_LOCK: Touch = Touch {
    cell: Cell::Lock,
    kind: Kind::Read,
};

const READ_CANDIDATE_GO: Touch = Touch {
    cell: Cell::CandidateGo,
    kind: Kind::Read,
};

const WRITE_SEEN_SPIN: Touch = Touch {
    cell: Cell::SeenSpin,
    kind: Kind::Write,
};

// For every point which word it touches and how.
const TOUCHES: [Touch; 46] = [
    UNTOUCHED,
    READ_STATUS,
    UNTOUCHED,
    READ_GO,
    WRITE_GO,
    READ_ACTIVE,
    ADD_ACTIVE,
    UNTOUCHED,
    READ_SPIN,
    UNTOUCHED,
    WRITE_STATUS,
    UNTOUCHED,
    WRITE_STATUS,
    WRITE_STATUS,
    READ_ACTIVE,
    ADD_ACTIVE,
    READ_GO,
    SWAP_LOCK,
    WRITE_GO,
    WRITE_STATUS,
    READ_LOCK,
    READ_ACTIVE,
    READ_CANDIDATE_GO,
    SWAP_LOCK,
    READ_LOCK,
    WRITE_SEEN_SPIN,
    UNTOUCHED,
    UNTOUCHED,
    UNTOUCHED,
    UNTOUCHED,
    READ_LOCK,
    READ_ACTIVE,
    READ_CANDIDATE_GO,
    SWAP_LOCK,
    READ_LOCK,
    WRITE_SEEN_SPIN,
    UNTOUCHED,
    UNTOUCHED,
    UNTOUCHED,
    UNTOUCHED,
    READ_LOCK,
    READ_ACTIVE,
    READ_CANDIDATE_GO,
    SWAP_LOCK,
    READ_LOCK,
    WRITE_SEEN_SPIN,
];

// Which word point n touches, and how.
pub fn touch_at(n: u8) -> Touch
    ensures { result ≡ Charges.touch_at (Points.point_of n) }
{
    TOUCHES.get(n as usize).copied().unwrap_or(UNTOUCHED)
}

// Bit n of a table of points stands.
#[tactic(auto, unfolding(model::specs::Mask::stands))]
pub fn has(places: u64, n: u8) -> bool
    ensures { result ≡ (ltb n 46 && stands places n) }
{
    n < POINTS && (places >> n) % 2 == 1
}

// What is kept of a working value: 0 where it has no place.
fn kept<T: Copy + Default>(place: bool, x: T) -> T
    ensures kept { IsTrue place → result ≡ x }
    ensures gone { IsFalse place → T.is_default result }
{
    if place { x } else { T::default() }
}

// The port with every working value 0 that has no place at its point.
pub fn settled(p: Port) -> Port
    ensures { result ≡ Points.settled p }
{
    let n = p.point;
    let seen = has(SEEN, n);
    let work = Work {
        own: kept(has(OWN, n), p.work.own),
        seenspin: kept(seen, p.work.seenspin),
        candidatespin: kept(has(CANDIDATE_SPIN, n), p.work.candidatespin),
        seenowner: kept(seen, p.work.seenowner),
        candidate: kept(has(CANDIDATE, n), p.work.candidate),
    };
    Port { work, ..p }
}
