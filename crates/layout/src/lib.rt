// The layout of an image: the form of each record, its values in their order, the head, and where each record stands. Here alone stand numbers of the
// layout. D and a port's number are bytes, as in the image, so that no size or place is out of reach.
#![tactic(auto)]

ghost use Rattle.std.specs.Prelude.{◌≡◌, ◌+◌, ◌*◌, ◌≤◌};
ghost use Rattle.model.specs.Bytes.{sum, pack, unpack};
ghost use Rattle.model.specs.Layout as Layout;
ghost use Rattle.layout.specs.Places as Places;

mod form;

pub use form::Form;
use model::{Cell, Copies, Port, Shared, Word, Work};

// The bytes of the records that each image has.
pub const HEAD_SIZE: usize = 14;

pub const SHARED_SIZE: usize = 12;

pub const PORT_SIZE: usize = 16;

pub const HEAD: Form<8> = Form {
    widths: [1, 1, 2, 2, 2, 2, 2, 2],
    size: HEAD_SIZE,
};

pub const SHARED: Form<4> = Form {
    widths: [8, 1, 1, 2],
    size: SHARED_SIZE,
};

pub const PORT: Form<11> = Form {
    widths: [1, 1, 1, 1, 2, 2, 2, 1, 2, 1, 2],
    size: PORT_SIZE,
};

// Single fields: the latest value in a port's record, and ACTIVE and the word in the record that all share.
pub const VALUE: Form<1> = Form {
    widths: [1],
    size: 1,
};

pub const VALUE_AT: usize = 3;

pub const ACTIVE: Form<1> = Form {
    widths: [8],
    size: 8,
};

pub const WORD: Form<3> = Form {
    widths: [1, 1, 2],
    size: 4,
};

pub const WORD_AT: usize = 8;

// The most ports whose copy sets take two bytes.
pub const NARROW: u8 = 16;

// The values of a record, in the layout's order.
#[tactic(auto, unfolding(model::specs::Layout::shared_values))]
pub fn shared_values(s: Shared) -> [u64; 4]
    ensures { result ≡ Layout.shared_values s }
{
    [
        s.active,
        u64::from(s.word.taken),
        u64::from(s.word.owner),
        u64::from(s.word.spin),
    ]
}

#[tactic(auto, unfolding(model::specs::Layout::port_values))]
pub fn port_values(p: Port) -> [u64; 11]
    ensures { result ≡ Layout.port_values p }
{
    [
        u64::from(p.point),
        u64::from(p.status),
        u64::from(p.flag),
        u64::from(p.value),
        u64::from(p.made),
        u64::from(p.go),
        u64::from(p.work.own),
        u64::from(p.work.seenowner),
        u64::from(p.work.seenspin),
        u64::from(p.work.candidate),
        u64::from(p.work.candidatespin),
    ]
}

#[tactic(auto, unfolding(model::specs::Layout::copied_values))]
pub fn copied_values(s: Shared) -> [u64; 2]
    ensures { result ≡ Layout.copied_values s }
{
    [s.activecopies, s.wordcopies]
}

#[tactic(auto, unfolding(model::specs::Layout::copies_values))]
pub fn copies_values(c: Copies) -> [u64; 3]
    ensures { result ≡ Layout.copies_values c }
{
    [c.status, c.go, c.spin]
}

// A record from its values, of each what is left in its width.
// Stays cut by `%`: no plainer, since `as` is proved to lose nothing, and the first of to_le_bytes is a longer way to say it.
pub fn shared_of(d: u64, v: [u64; 4], c: [u64; 2]) -> Shared
    ensures { result ≡ Layout.shared_of d (unpack Layout.shared_widths (pack Layout.shared_widths v)) c }
{
    let word = Word {
        spin: (v[3] % 65536) as u16,
        owner: (v[2] % 256) as u8,
        taken: (v[1] % 256) as u8,
    };
    Shared {
        active: v[0],
        activecopies: c[0],
        wordcopies: c[1],
        d,
        word,
    }
}

fn work_of(v: [u64; 11]) -> Work
    ensures { result ≡ (Layout.port_of (unpack Layout.port_widths (pack Layout.port_widths v))).work }
{
    Work {
        own: (v[6] % 65536) as u16,
        seenspin: (v[8] % 65536) as u16,
        candidatespin: (v[10] % 65536) as u16,
        seenowner: (v[7] % 256) as u8,
        candidate: (v[9] % 256) as u8,
    }
}

pub fn port_of(v: [u64; 11]) -> Port
    ensures { result ≡ Layout.port_of (unpack Layout.port_widths (pack Layout.port_widths v)) }
{
    let work = work_of(v);
    Port {
        work,
        made: (v[4] % 65536) as u16,
        go: (v[5] % 65536) as u16,
        point: (v[0] % 256) as u8,
        status: (v[1] % 256) as u8,
        flag: (v[2] % 256) as u8,
        value: (v[3] % 256) as u8,
    }
}

#[tactic(auto, unfolding(model::specs::Layout::copies_of))]
pub fn copies_of(v: [u64; 3]) -> Copies
    ensures { result ≡ Layout.copies_of v }
{
    Copies {
        status: v[0],
        go: v[1],
        spin: v[2],
    }
}

// The length of the copy sets in the image of d ports.
#[tactic(auto, using(crate::specs::Laws::Inside::places))]
fn copies_long(d: u8) -> u64
    ensures { result ≡ sum (Layout.copied_widths d) + d * sum (Layout.copies_widths d) }
{
    let set = set_width(d) as u64;
    2 * set + u64::from(d) * (3 * set)
}

#[tactic(auto, unfolding(model::specs::Layout::version))]
fn version(d: u8) -> u64
    ensures { result ≡ Layout.version d }
{
    if d <= NARROW { 1 } else { 2 }
}

// The head of the image of d ports: version, D, start and length of each body.
#[tactic(auto, unfolding(model::specs::Bytes::sum, model::specs::Layout::head_widths, model::specs::Layout::shared_widths, model::specs::Layout::port_widths, model::specs::Layout::port_place, model::specs::Layout::head_values))]
pub fn head_values(d: u8) -> [u64; 8]
    ensures { result ≡ Layout.head_values d }
{
    let n = u64::from(d);
    let shared = HEAD_SIZE as u64;
    let ports = shared + SHARED_SIZE as u64;
    let copies = ports + n * PORT_SIZE as u64;
    [
        version(d),
        n,
        shared,
        SHARED_SIZE as u64,
        ports,
        n * PORT_SIZE as u64,
        copies,
        copies_long(d),
    ]
}

// Where port k stands; where the copy sets of port k stand in the image of d ports.
#[tactic(auto, unfolding(model::specs::Bytes::sum, model::specs::Layout::head_widths, model::specs::Layout::shared_widths, model::specs::Layout::port_widths, model::specs::Layout::port_place))]
pub fn port_place(k: u8) -> usize
    ensures { result ≡ Layout.port_place k }
{
    HEAD_SIZE + SHARED_SIZE + usize::from(k) * PORT_SIZE
}

#[tactic(auto, using(crate::specs::Laws::Inside::places))]
pub fn copies_place(d: u8, k: u8) -> usize
    ensures { result ≡ Layout.copies_place d k }
{
    let set = set_width(d);
    port_place(d) + 2 * set + usize::from(k) * (3 * set)
}

// Where the copy set of a word stands in the image of d ports, j being the port that the word belongs to; where there is no word, past the image.
// Stays a number there and no None: the definition Places.set_place gives a place to each word, Nothing too.
pub fn set_place(cell: Cell, d: u8, j: u8) -> usize
    ensures { result ≡ Places.set_place cell d j }
{
    let at = copies_place(d, j);
    let all = port_place(d);
    let w = set_width(d);
    match cell {
        Cell::Nothing => size(d),
        Cell::Status => at,
        Cell::Go => at + w,
        Cell::Spin => at + 2 * w,
        Cell::Active => all,
        Cell::Lock => all + w,
        Cell::CandidateGo => at + w,
        Cell::SeenSpin => at + 2 * w,
    }
}

// The bytes of a copy set in the image of d ports.
#[tactic(auto, unfolding(model::specs::Layout::set_width))]
pub fn set_width(d: u8) -> usize
    ensures value { result ≡ Layout.set_width d }
    ensures upper_bound { result ≤ 8 }
{
    if d <= NARROW { 2 } else { 8 }
}

// The length of the image of d ports.
#[tactic(auto, unfolding(model::specs::Layout::size))]
pub fn size(d: u8) -> usize
    ensures { result ≡ Layout.size d }
{
    copies_place(d, d)
}
