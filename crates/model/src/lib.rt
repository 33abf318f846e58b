// The table of one lock, and what its functions answer. Document 01, section 'The table'.
#![tactic(auto)]

// The most ports that a table has room for.
pub const ROOM: usize = 64;

// The lock word: taken (0 or 1), owner and spin number. Its spin belongs to its owner.
#[derive(Clone, Copy, PartialEq, Eq, Default)]
pub struct Word {
    pub spin: u16,
    // Stay numbers: an image may hold any, and rules say which are good (definition shared_rules).
    pub owner: u8,
    pub taken: u8,
}

// The working values of a port.
#[derive(Clone, Copy, Default)]
pub struct Work {
    pub own: u16,
    pub seenspin: u16,
    pub candidatespin: u16,
    pub seenowner: u8,
    pub candidate: u8,
}

// One port: its working values, the count of spins made, GO, point, STATUS, call-off flag, and the value of its latest spin.
#[derive(Clone, Copy, Default)]
pub struct Port {
    pub work: Work,
    pub made: u16,
    pub go: u16,
    // Stay numbers, as an image may hold any of them: rules say which are good (definition field_rules).
    pub point: u8,
    pub status: u8,
    pub flag: u8,
    pub value: u8,
}

// The ports with a current copy of a port's STATUS, GO and latest spin: bit j for port j.
#[derive(Clone, Copy, Default)]
pub struct Copies {
    pub status: u64,
    pub go: u64,
    pub spin: u64,
}

// What all ports share: ACTIVE, the ports with a copy of ACTIVE and of the word, the number of ports, and the word.
#[derive(Clone, Copy, Default)]
pub struct Shared {
    pub active: u64,
    pub activecopies: u64,
    pub wordcopies: u64,
    pub d: u64,
    pub word: Word,
}

// The table. Room for ports at or above d is all 0.
#[derive(Clone, Copy)]
pub struct Table {
    // Stay two lists of fixed room: definitions port_at and copies_at name each, and the engine has no heap.
    pub ports: [Port; ROOM],
    pub copies: [Copies; ROOM],
    pub shared: Shared,
}

// What a step of port k can see: its own record, ACTIVE, the number of ports, GO of the port that it touches, and the word.
#[derive(Clone, Copy)]
pub struct View {
    pub own: Port,
    pub active: u64,
    pub d: u64,
    pub k: u64,
    pub go: u16,
    pub word: Word,
}

// What a step changes: its own record, ACTIVE and the word; whether it makes a new spin, and whether it sets the seen owner's seen spin.
#[derive(Clone, Copy)]
pub struct Move {
    pub own: Port,
    pub active: u64,
    pub word: Word,
    // Stay flags: two facts of a step, with no value of their own (definitions of Parts/Moves).
    pub makes: bool,
    pub sets: bool,
}

// The words that a step can touch: its port's STATUS, GO and own spin, ACTIVE, the lock word, its candidate's GO and its seen owner's seen spin.
#[derive(Clone, Copy)]
pub enum Cell {
    // Stays among the words: definitions give every point a touch, and `untouched` is one.
    Nothing,
    Status,
    Go,
    Spin,
    Active,
    Lock,
    CandidateGo,
    SeenSpin,
}

#[derive(Clone, Copy)]
pub enum Kind {
    // Stays, as in Cell.
    Nothing,
    Read,
    Write,
    Add,
    Swap,
}

// Which word a point touches, and how.
#[derive(Clone, Copy)]
pub struct Touch {
    pub cell: Cell,
    pub kind: Kind,
}

// What a touch of a word costs in both models, and the ports with a copy of the word after it.
#[derive(Clone, Copy)]
pub struct Fee {
    pub set: u64,
    pub cached: u64,
    pub distributed: u64,
}

// What a touch costs in both models, and the copy sets after it.
#[derive(Clone, Copy)]
pub struct Charge {
    pub shared: Shared,
    pub copies: Copies,
    pub cached: u64,
    pub distributed: u64,
}

// What is bad in a table (request R-2): 1.0 to 1.4 by its kind, the port, and the byte of the image where the field begins.
#[derive(Clone, Copy, PartialEq, Eq, Default)]
pub struct Fault {
    // Stays a number: definition Good.fault has it so, and C is given it.
    pub kind: u8,
    pub port: u8,
    pub place: u16,
}

// The answers of document 01, section 'Refusal numbers', in the order of their numbers.
#[derive(Clone, Copy)]
pub enum Answer {
    // Stays among the refusals: document 01 numbers it with them (definitions number_of, first_of), and the theorems speak of it.
    Done,
    BadTable(Fault),
    NoSuchPort,
    NoSuchEvent,
    Busy,
    Worn,
    NotInside,
    Idle,
    Inside,
    BadSize,
    ShortRoom,
    BadImage,
}

// What an event answers: the table after it, the cached and the distributed cost, and the answer.
// Stays a struct: a refusal gives the table and the costs too (theorem refused-nothing).
#[derive(Clone, Copy)]
pub struct Outcome {
    pub table: Table,
    pub cached: u64,
    pub distributed: u64,
    pub answer: Answer,
}

// What `fresh` and a run answer: a table, and DONE or a refusal.
// Stays a struct: a refusal comes with a table (definitions fresh, run).
#[derive(Clone, Copy)]
pub struct Made {
    pub table: Table,
    pub answer: Answer,
}
