// A line of each kind of vectors: what it asks is done, and compared with what it wants.
use crate::text::{Cursor, SPACE};
use image::{reader, writer};
use lock::events;
use model::{Answer, Table};

// The number that a line wants, and whether all is as it wants.
// Stay two: each is counted by itself.
#[derive(Clone, Copy)]
pub struct Line {
    pub number: u64,
    pub right: bool,
}

// The answer that a line wants: its number, and of BAD TABLE kind, port and place, which are 0 of all others.
// Stays in numbers: a line may want any, also one that no answer has, and the program counts the answers by number.
#[derive(Clone, Copy, PartialEq, Eq, Default)]
struct Wanted {
    number: u64,
    kind: u64,
    port: u64,
    place: u64,
}

impl From<Answer> for Wanted {
    fn from(answer: Answer) -> Wanted {
        let number = answers::number(answer);
        match answer {
            Answer::BadTable(f) => Wanted {
                number,
                kind: u64::from(f.kind),
                port: u64::from(f.port),
                place: u64::from(f.place),
            },
            _ => Wanted {
                number,
                ..Wanted::default()
            },
        }
    }
}

impl Wanted {
    fn read(text: &mut Cursor<'_>) -> Wanted {
        Wanted {
            number: text.number(),
            kind: text.number(),
            port: text.number(),
            place: text.number(),
        }
    }
}

// The image of a table is these bytes; of a table that cannot be written it is none.
fn written(table: Table, want: &[u8]) -> bool {
    // Stays a room of fixed size: writer::write puts the image into what it is lent.
    let mut room = [0u8; SPACE];
    let length = writer::write(table, &mut room).unwrap_or(0);
    room.get(..length) == Some(want)
}

// A line of an image: the image, the answer, and the bytes written back.
pub fn image(text: &mut Cursor<'_>) -> Line {
    let (mut room, mut other) = ([0u8; SPACE], [0u8; SPACE]);
    let image = text.bytes(&mut room);
    let w = Wanted::read(text);
    let want = text.last(image, &mut other);
    text.skip(1);
    let made = reader::read(image);
    Line {
        number: w.number,
        right: (Wanted::from(made.answer) == w) & written(made.table, want),
    }
}

// An order and the costs that are wanted.
#[derive(Clone, Copy)]
struct Order {
    port: u64,
    event: u64,
    cached: u64,
    distributed: u64,
}

// Carries an event out on the table of an image and writes what comes of it: answer, costs and bytes are those wanted. Of a bad table the reader says what is
// bad, as an event on it would, and nothing is changed.
fn event_right(bytes: &[u8], o: Order, w: Wanted, want: &[u8]) -> bool {
    let made = reader::read(bytes);
    let read = Wanted::from(made.answer);
    if w.number == 1 {
        return (read == w) & (o.cached == 0) & (o.distributed == 0) & (bytes == want);
    }
    let r = events::event(made.table, o.port, o.event);
    let same = (r.cached == o.cached) & (r.distributed == o.distributed) & written(r.table, want);
    (read.number == 0) & (Wanted::from(r.answer) == w) & same
}

// A line of an event: an image, port, event, the answer, both costs, and the image of the table after it.
pub fn event(text: &mut Cursor<'_>) -> Line {
    let (mut room, mut other) = ([0u8; SPACE], [0u8; SPACE]);
    let image = text.bytes(&mut room);
    let port = text.number();
    let event = text.number();
    let w = Wanted::read(text);
    let order = Order {
        port,
        event,
        cached: text.number(),
        distributed: text.number(),
    };
    let want = text.last(image, &mut other);
    text.skip(1);
    Line {
        number: w.number,
        right: event_right(image, order, w, want),
    }
}
