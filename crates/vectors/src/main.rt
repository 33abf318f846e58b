// Runs the vectors of images and of events, and every one-byte damage of one image; prints how many lines are right, and how often each number was answered.
#![tactic(auto)]

mod lines;
mod text;

ghost use Rattle.std.specs.Prelude.{◌≡◌, ◌≤◌, length, IfOk};

use image::reader;
use lines::Line;
use std::rt::Files;
use std::{fs, io};
use text::Cursor;

// An image of two ports.
const IMAGE: [u8; 74] = [
    1, 2, 14, 0, 12, 0, 26, 0, 32, 0, 58, 0, 16, 0, 2, 0, 0, 0, 0, 0, 0, 0, 0, 1, 136, 68, 8, 3, 0,
    0, 199, 134, 227, 116, 199, 134, 0, 0, 0, 0, 0, 0, 21, 3, 0, 1, 146, 122, 146, 122, 146, 122,
    0, 109, 4, 0, 0, 0, 0, 0, 3, 0, 3, 0, 2, 0, 2, 0, 3, 0, 3, 0, 1, 0,
];

// The most lines that are read of a file.
const LINES: u64 = 1000;

// How many lines were read, how many of them are right, and how many were answered 0, 1 and 11.
#[derive(Clone, Copy, Default)]
struct Tally {
    lines: u64,
    right: u64,
    done: u64,
    badtable: u64,
    badimage: u64,
}

impl Tally {
    fn count(&mut self, number: u64, right: bool) {
        self.lines = self.lines.wrapping_add(1);
        self.right = self.right.wrapping_add(u64::from(right));
        self.done = self.done.wrapping_add(u64::from(number == 0));
        self.badtable = self.badtable.wrapping_add(u64::from(number == 1));
        self.badimage = self.badimage.wrapping_add(u64::from(number == 11));
    }
}

// All lines of a text, each read and carried out by `line`.
fn all_lines<F>(text: &[u8], line: F) -> Tally
where
    F: Fn(&mut Cursor<'_>) -> Line,
    requires { F.IsAlwaysCallable line }
{
    let mut tally = Tally::default();
    let mut rest = Cursor::new(text);
    for _ in 0..LINES {
        if rest.is_empty() {
            break;
        }
        let l = line(&mut rest);
        tally.count(l.number, l.right);
    }
    tally
}

// Every damage of one byte of the image.
fn damages() -> Tally {
    let mut tally = Tally::default();
    for (i, was) in IMAGE.iter().enumerate() {
        for b in 0..=u8::MAX {
            if b != *was {
                let mut image = IMAGE;
                image[i] = b;
                tally.count(answers::number(reader::read(&image).answer), true);
            }
        }
    }
    tally
}

// Stays a write for each number: where one fails, what stands before it is written.
fn print(rt: &impl Print, label: &str, n: u64) -> io::Result<()> {
    print!(rt; "{label}{n}")
}

fn print_answers(rt: &impl Print, tally: Tally) -> io::Result<()> {
    print(rt, " done ", tally.done)?;
    print(rt, " bad table ", tally.badtable)?;
    print(rt, " bad image ", tally.badimage)?;
    println!(rt)
}

// Reads until the room is full or the file ends, and gives how many bytes were read.
fn read_full<I: io::Read>(file: &mut I, room: &mut [u8]) -> io::Result<usize>
    ensures { IfOk result (λ n. n ≤ length room.new) }
{
    let mut n: usize = 0;
    for _ in 0..u64::MAX {
        let got = file.read(&mut room[n..])?;
        if got == 0 {
            break;
        }
        n += got;
    }
    Ok(n)
}

// Room for the longest file. Only its length is known, since no proof could write out so many zeros.
fn file_room() -> [u8; 600000]
    ensures { 600000 ≡ length result }
{
    [0; 600000]
}

// Runs the lines of a file. One that cannot be opened is left out, and said to be.
// Stays a room of fixed size: a Vec can be refused, and takes more memory.
fn run_file<R: Files + Print + Eprint, F>(
    rt: &R,
    label: &str,
    path: &str,
    line: F,
) -> io::Result<()>
where
    F: Fn(&mut Cursor<'_>) -> Line,
    requires { F.IsAlwaysCallable line }
{
    let mut file = match fs::open(rt, path) {
        Ok(file) => file,
        Err(e) => {
            return eprintln!(rt; "{path}: {e}");
        }
    };
    let mut room = file_room();
    let n = read_full(&mut file, &mut room)?;
    let tally = all_lines(&room[..n], line);
    print(rt, label, tally.lines)?;
    print(rt, " right ", tally.right)?;
    print_answers(rt, tally)
}

fn main(rt: HostRuntime) -> io::Result<()> {
    run_file(&rt, "images ", "images.txt", lines::image)?;
    run_file(&rt, "events ", "events.txt", lines::event)?;
    let tally = damages();
    print(&rt, "damages ", tally.lines)?;
    print_answers(&rt, tally)
}
