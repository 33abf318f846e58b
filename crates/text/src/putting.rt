// What is printed, put into a lent buffer.
ghost use Rattle.std.specs.Prelude.{◌≡◌, ◌+◌, ◌%◌, ◌<◌, ◌∷◌, [], ◌++◌, length, set};
ghost use Rattle.lines.specs.Line.{newline, space};
ghost use Rattle.text.specs.Text as Text;
ghost use Rattle.text.specs.Parts as Parts;
ghost use Rattle.text.specs.Laws.Put.{Puts, limit};

use crate::Row;
use model::Word;

// The last digit of n.
fn last_digit(n: u64) -> u8
    ensures { result ≡ 48 + n % 10 }
{
    b'0' + (n % 10) as u8
}

// How many digits n has.
fn digits(n: u64) -> usize
    ensures { result ≡ length (Text.decimal n) }
{
    match n.checked_ilog10() {
        Some(k) => k as usize + 1,
        None => 1,
    }
}

// A lent buffer, and the place where the next byte goes. Bytes past the buffer's end are dropped.
// Stays a bound in each contract: no plainer as an invariant, as each method needs places for the longest text of its own.
#[derive(Drop)]
pub struct Sheet<'a> {
    pub out: &'a mut [u8],
    pub at: usize,
}

impl Sheet<'_> {
    fn set(&mut self, i: usize, b: u8)
        ensures same { self.new.out.ghost_name ≡ self.old.out.ghost_name }
        ensures place { self.new.at ≡ self.old.at }
        ensures bytes { self.new.out.now ≡ set self.old.out.now i b }
    {
        if i < self.out.len() {
            self.out[i] = b;
        }
    }

    fn put(&mut self, b: u8)
        requires { self.old.at < limit }
        ensures { Puts self.old (b ∷ []) 1 self.new }
    {
        self.set(self.at, b);
        self.at += 1;
    }

    // A number in decimal: its digits are counted, and then put from the last to the first.
    // Stays a loop: tried by itoa and as a recursion, which both miss the bar of speed (schedule-16).
    fn decimal(&mut self, n: u64)
        requires { self.old.at + 20 < limit }
        ensures { Puts self.old (Text.decimal n) 20 self.new }
    {
        let end = self.at + digits(n);
        let mut x = n;
        let mut i = end;
        while 10 <= x {
            i -= 1;
            self.set(i, last_digit(x));
            x = x / 10;
        }
        self.set(self.at, last_digit(x));
        self.at = end;
    }

    fn cell(&mut self, n: u64, after: u8)
        requires { self.old.at + 21 < limit }
        ensures { Puts self.old (Text.cell n after) 21 self.new }
    {
        self.decimal(n);
        self.put(after);
    }

    fn order(&mut self, number: u64, letter: u8, port: u64)
        requires { self.old.at + 44 < limit }
        ensures { Puts self.old (Text.cell number space ++ (letter ∷ space ∷ []) ++ Text.cell port space) 44 self.new }
    {
        self.cell(number, b' ');
        self.put(letter);
        self.put(b' ');
        self.cell(port, b' ');
    }

    fn point(&mut self, answer: u64, point: u64)
        requires { self.old.at + 21 < limit }
        ensures { Puts self.old (Text.point_text answer point) 21 self.new }
    {
        if answer == 2 {
            self.put(b'-');
            self.put(b' ');
        } else {
            self.cell(point, b' ');
        }
    }

    fn state(&mut self, answer: u64, point: u64, active: u64)
        requires { self.old.at + 63 < limit }
        ensures { Puts self.old (Text.cell answer space ++ Text.point_text answer point ++ Text.cell active space) 63 self.new }
    {
        self.cell(answer, b' ');
        self.point(answer, point);
        self.cell(active, b' ');
    }

    fn word(&mut self, word: Word)
        requires { self.old.at + 63 < limit }
        ensures { Puts self.old (Text.cell word.taken 46 ++ Text.cell word.owner 46 ++ Text.cell word.spin space) 63 self.new }
    {
        self.cell(word.taken as u64, b'.');
        self.cell(word.owner as u64, b'.');
        self.cell(word.spin as u64, b' ');
    }

    fn costs(&mut self, cached: u64, distributed: u64)
        requires { self.old.at + 42 < limit }
        ensures { Puts self.old (Text.cell cached space ++ Text.cell distributed newline) 42 self.new }
    {
        self.cell(cached, b' ');
        self.cell(distributed, b'\n');
    }
    // The line for an event.
    pub fn event(&mut self, row: Row)
        requires { self.old.at + Text.longest < limit }
        ensures { Puts self.old (Parts.row_text row) Text.longest self.new }
    {
        let shared = row.shared;
        self.order(row.number, row.letter, row.port);
        self.state(row.answer, row.point, shared.active);
        self.word(shared.word);
        self.costs(row.cached, row.distributed);
    }

    // `BAD` and the number of a malformed line.
    pub fn bad(&mut self, number: u64)
        requires { self.old.at + Text.longest < limit }
        ensures { Puts self.old (Text.bad number) Text.longest self.new }
    {
        self.put(b'B');
        self.put(b'A');
        self.put(b'D');
        self.put(b' ');
        self.cell(number, b'\n');
    }
}
