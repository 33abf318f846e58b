// The text of the vectors: bytes in hexadecimal and numbers in decimal, each with a byte before it but the first.
ghost use Rattle.std.specs.Prelude.{◌<◌, IfSome};

use std::str;

// The most bytes that are read of one field.
pub const SPACE: usize = 2602;

// The most digits that are read of a number.
const DIGITS: usize = 9;

// What is still to be read of a text.
#[derive(Clone, Copy)]
pub struct Cursor<'a> {
    rest: &'a [u8],
}

fn digit(b: u8) -> Option<u8>
    ensures { IfSome result (λ d. d < 16) }
{
    match b {
        b'0'..=b'9' => Some(b - b'0'),
        b'a'..=b'f' => Some(b - b'a' + 10),
        _ => None,
    }
}

// The byte that two digits stand for.
fn byte(digits: &[u8]) -> Option<u8> {
    let high = digit(*digits.first()?)?;
    let low = digit(*digits.get(1)?)?;
    Some(16 * high + low)
}

impl<'a> Cursor<'a> {
    pub fn new(text: &'a [u8]) -> Cursor<'a> {
        Cursor { rest: text }
    }

    pub fn is_empty(&self) -> bool {
        self.rest.is_empty()
    }

    // Takes n bytes, or all where there are fewer.
    fn take(&mut self, n: usize) -> &'a [u8] {
        let (taken, rest) = self.rest.split_at(n.min(self.rest.len()));
        self.rest = rest;
        taken
    }

    pub fn skip(&mut self, n: usize) {
        self.take(n);
    }

    // Reads bytes into room for them; another sign, as `-`, stands for none.
    pub fn bytes<'r>(&mut self, room: &'r mut [u8; SPACE]) -> &'r [u8] {
        let mut n: usize = 0;
        for (digits, slot) in self.rest.chunks_exact(2).zip(room.iter_mut()) {
            let Some(b) = byte(digits) else {
                break;
            };
            *slot = b;
            n = n.wrapping_add(1);
        }
        self.skip(n.wrapping_mul(2).max(1));
        &room[..n.min(SPACE)]
    }

    // Reads the last field of a line: bytes, or `=`, which stands for the first field again.
    pub fn last<'r>(&mut self, first: &'r [u8], room: &'r mut [u8; SPACE]) -> &'r [u8] {
        self.skip(1);
        if let Some(rest) = self.rest.strip_prefix(b"=") {
            self.rest = rest;
            return first;
        }
        self.bytes(room)
    }

    // Reads a number, which is 0 where no digit stands.
    // Stays 0 there: no plainer, as a line without its number is one that is not right.
    pub fn number(&mut self) -> u64 {
        self.skip(1);
        let digits = self
            .rest
            .iter()
            .take(DIGITS)
            .take_while(|b| b.is_ascii_digit())
            .count();
        let number = self.take(digits);
        str::from_utf8(number)
            .ok()
            .and_then(|n| n.parse().ok())
            .unwrap_or(0)
    }
}
