// The steps: port, word and ACTIVE in, the same out. A line for each point; the three promotions are one body with a return point.
ghost use Rattle.std.specs.Prelude.{◌≡◌, cond, ◌&&◌, ◌+◌, ◌≤◌, ◌<◌, eqb, ltb, get_or};
ghost use Rattle.model.specs.Table as Table;
ghost use Rattle.model.specs.Points as Points;
ghost use Rattle.model.specs.Points.{Tens, tens};
ghost use Rattle.model.specs.Step as Step;
ghost use Rattle.model.specs.Parts.Moves as Moves;
ghost use Rattle.lock.specs.Sight.{Sight};

use model::{Move, Port, View, Word, Work};

// Stay bytes: a table holds any byte as a status and as a point, and the check refuses those without a name (definition field_rules of model).
pub const TRY: u8 = 0;

pub const CS: u8 = 1;

pub const EXIT: u8 = 2;

pub const ABORT: u8 = 3;

// What a step changes that changes its own record alone.
pub fn changed(v: View, p: Port) -> Move
    ensures { result ≡ Moves.changed v p }
{
    Move {
        own: p,
        active: v.active,
        word: v.word,
        makes: false,
        sets: false,
    }
}

// Compare and swap: the word becomes new where it is old.
#[tactic(auto, unfolding(model::specs::Step::swapped, model::specs::Step::same))]
fn swapped(w: Word, old: Word, new: Word) -> Word
    ensures { result ≡ Step.swapped w old new }
{
    if w == old { new } else { w }
}

// Spin n of a port, where an older one reads as 0.
#[tactic(auto, unfolding(model::specs::Table::read_spin))]
fn read_spin(p: Port, n: u16) -> u8
    ensures { result ≡ Table.read_spin p n }
{
    if costs::latest(p, n) { p.value } else { 0 }
}

// Point 4: a new spin.
#[tactic(auto, unfolding(model::specs::Parts::Moves::step, model::specs::Table::most))]
fn new_spin(v: View) -> Move
    requires { v.own.made < Table.most }
    ensures { result ≡ Moves.step Points.p4 v }
{
    let n = v.own.made + 1;
    let p = Port {
        work: Work {
            own: n,
            ..v.own.work
        },
        made: n,
        go: n,
        value: 0,
        point: 5,
        ..v.own
    };
    Move {
        makes: true,
        ..changed(v, p)
    }
}

// Point 17: the word released, where it is this port's with its own spin.
#[tactic(auto, unfolding(model::specs::Parts::Moves::released))]
fn released(v: View) -> Word
    requires { v.k < 256 }
    ensures { result ≡ Moves.released v }
{
    let owner = v.k as u8;
    let spin = v.own.work.own;
    let old = Word {
        spin,
        owner,
        taken: 1,
    };
    let new = Word {
        spin,
        owner,
        taken: 0,
    };
    swapped(v.word, old, new)
}

// The points on the way in, below 11.
#[tactic(auto, unfolding(model::specs::Parts::Moves::step))]
fn entering(v: View) -> Move
    requires { Sight v }
    ensures { v.own.point < 11 → result ≡ Moves.step (Points.point_of v.own.point) v }
{
    let p = v.own;
    match p.point {
        1 => {
            let point = match p.status {
                CS => 11,
                EXIT => 13,
                _ => 2,
            };
            changed(v, Port { point, ..p })
        }
        2 => {
            let point = if p.flag == 1 { 12 } else { 3 };
            changed(v, Port { point, ..p })
        }
        3 => {
            let work = Work {
                own: p.go,
                ..p.work
            };
            let point = if p.go == 0 { 4 } else { 5 };
            changed(v, Port { work, point, ..p })
        }
        4 => new_spin(v),
        5 => {
            let point = if masks::stands(v.active, v.k) { 20 } else { 6 };
            changed(v, Port { point, ..p })
        }
        6 => Move {
            active: masks::bit_added(v.active, v.k),
            ..changed(v, Port { point: 20, ..p })
        },
        8 => {
            let point = if read_spin(p, p.work.own) == 1 { 10 } else { 9 };
            changed(v, Port { point, ..p })
        }
        9 => {
            let point = if p.flag == 1 { 12 } else { 8 };
            changed(v, Port { point, ..p })
        }
        10 => changed(
            v,
            Port {
                status: CS,
                point: 11,
                ..p
            },
        ),
        _ => changed(v, p),
    }
}

// The points from 11 on and below 20, on the way out.
#[tactic(auto, unfolding(model::specs::Parts::Moves::step))]
fn leaving(v: View) -> Move
    requires { Sight v }
    ensures { 11 ≤ v.own.point → v.own.point < 20 → result ≡ Moves.step (Points.point_of v.own.point) v }
{
    let p = v.own;
    match p.point {
        12 => changed(
            v,
            Port {
                status: ABORT,
                point: 14,
                ..p
            },
        ),
        13 => changed(
            v,
            Port {
                status: EXIT,
                point: 14,
                ..p
            },
        ),
        14 => {
            let point = if masks::stands(v.active, v.k) { 15 } else { 16 };
            changed(v, Port { point, ..p })
        }
        15 => Move {
            active: masks::bit_taken(v.active, v.k),
            ..changed(v, Port { point: 16, ..p })
        },
        16 => {
            let work = Work {
                own: p.go,
                ..p.work
            };
            changed(
                v,
                Port {
                    work,
                    point: 30,
                    ..p
                },
            )
        }
        17 => Move {
            word: released(v),
            ..changed(v, Port { point: 40, ..p })
        },
        18 => changed(
            v,
            Port {
                go: 0,
                point: 19,
                ..p
            },
        ),
        19 => changed(
            v,
            Port {
                status: TRY,
                flag: 0,
                point: 0,
                ..p
            },
        ),
        _ => changed(v, p),
    }
}

// x1: the port with its candidate at the next point. Where ACTIVE is 0, at 31 the port itself is candidate, 32; at 21 and 41, x4. Inlined, so that no view
// and no port is handed on through the stack.
#[tactic(auto, unfolding(model::specs::Parts::Moves::step, model::specs::Step::unasked))]
#[inline(always)]
fn asked(v: View, x: u8) -> Port
    requires { Sight v × (x < 50) }
    ensures { (y : Tens) → x ≡ tens y → Moves.changed v result ≡ Moves.step (Points.x1 y) v }
{
    let p = v.own;
    if v.active == 0 {
        if x == 30 {
            let work = Work {
                candidate: v.k as u8,
                ..p.work
            };
            return Port {
                work,
                point: 32,
                ..p
            };
        }
        return Port { point: x + 4, ..p };
    }
    let work = Work {
        candidate: masks::next(p.work.seenowner as u64, v.active) as u8,
        ..p.work
    };
    Port {
        work,
        point: x + 2,
        ..p
    }
}

// x3: the word granted to the candidate, where it is still as seen.
#[tactic(auto, unfolding(model::specs::Parts::Moves::granted))]
fn granted(v: View) -> Word
    ensures { result ≡ Moves.granted v }
{
    let w = v.own.work;
    let old = Word {
        spin: w.seenspin,
        owner: w.seenowner,
        taken: 0,
    };
    let new = Word {
        spin: w.candidatespin,
        owner: w.candidate,
        taken: 1,
    };
    swapped(v.word, old, new)
}

// The working values with the word as seen.
fn seen(v: View) -> Work
    ensures { result ≡ (Step.with_seen v.word v.own).work }
{
    Work {
        seenowner: v.word.owner,
        seenspin: v.word.spin,
        ..v.own.work
    }
}

// x4: where the word is taken with a spin above 0 it is seen, x5; else back.
fn looked(v: View, x: u8, back: u8) -> Port
    requires { x < 50 }
    ensures { result ≡ cond (eqb v.word.taken 1 && ltb 0 v.word.spin) (Step.at (x + 5) (Step.with_seen v.word v.own)) (Step.at back v.own) }
{
    let p = v.own;
    if (v.word.taken == 1) & (0 < v.word.spin) {
        return Port {
            work: seen(v),
            point: x + 5,
            ..p
        };
    }
    Port { point: back, ..p }
}

// The i-th point of the promotion with tens x, which goes back to `back`. A step calls it at three places: without the hint it stands apart, and a step costs a
// tenth more.
// Stays a match on the point, as in `step`, `entering` and `leaving`: document 01's tables and definition Moves.step go by it.
#[tactic(auto, unfolding(model::specs::Parts::Moves::step))]
#[inline(always)]
fn promoted(v: View, i: u8, x: u8, back: u8) -> Move
    requires { Sight v × (x < 50) }
    ensures { (y : Tens) → x ≡ tens y → back ≡ Points.back y → result ≡ Moves.step (get_or (Points.promotion y) i Points.none) v }
{
    let p = v.own;
    match i {
        0 => {
            let next = if v.word.taken == 1 { 4 } else { 1 };
            changed(
                v,
                Port {
                    work: seen(v),
                    point: x + next,
                    ..p
                },
            )
        }
        1 => changed(v, asked(v, x)),
        2 => {
            let work = Work {
                candidatespin: v.go,
                ..p.work
            };
            changed(
                v,
                Port {
                    work,
                    point: x + 3,
                    ..p
                },
            )
        }
        3 => Move {
            word: granted(v),
            ..changed(v, Port { point: x + 4, ..p })
        },
        4 => changed(v, looked(v, x, back)),
        5 => Move {
            sets: true,
            ..changed(v, Port { point: back, ..p })
        },
        _ => changed(v, p),
    }
}

// Stays a fact in each contract: the clause of acts::tried holds of any view, so that a View can't hold it. Inlined, so that no view and no
// move is handed on through the stack.
#[inline(always)]
pub fn step(v: View) -> Move
    requires { Sight v }
    ensures { result ≡ Moves.step (Points.point_of v.own.point) v }
{
    let n = v.own.point;
    if n < 11 {
        entering(v)
    } else if n < 20 {
        leaving(v)
    } else if n < 30 {
        promoted(v, n - 20, 20, 8)
    } else if n < 40 {
        promoted(v, n - 30, 30, 17)
    } else {
        promoted(v, n - 40, 40, 18)
    }
}

// The same where the compiler weighs whether to inline it: so a call on an image needs less stack.
pub fn weighed(v: View) -> Move
    requires { Sight v }
    ensures { result ≡ Moves.step (Points.point_of v.own.point) v }
{
    step(v)
}
