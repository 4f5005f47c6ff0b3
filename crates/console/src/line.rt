// A line of output, written piece by piece: into a run of bytes, where each function writes its piece from `at` and returns the place after it, and
// in fixed memory, as a Line. Clauses see a Line as the list of the bytes written.
ghost use Rattle.std.specs.Prelude.{◌≡◌, ℕ, ◌+◌, ◌≤◌, ◌<◌, List, [], ◌∷◌, ◌++◌, length, take};
ghost use Rattle.console.specs.Text.{hex_digit, hex_digits, decimal_digits, Wrote};

use std::marker::Model;

// The bases.
const TEN: u8 = 10;

const HEX: u32 = 16;

const DECIMAL: u64 = 10;

// The byte b, for example a space or the end of the line.
pub fn put_byte(line: &mut [u8], at: usize, b: u8) -> usize
    requires { at + 1 ≤ length line.old }
    ensures value { result ≡ at + 1 }
    ensures wrote { Wrote line.old at (b ∷ []) result line.new }
{
    line[at] = b;
    at + 1
}

// The bytes of a text, for example a word.
pub fn put_text(line: &mut [u8], at: usize, text: &[u8]) -> usize
    requires { at + length text.now ≤ length line.old }
    ensures { Wrote line.old at text.now result line.new }
{
    runs::copy_part(line, at, text, 0, text.len());
    at + text.len()
}

// v in decimal: at most 20 digits. Digits are written here, as std's `write!` promises its text where it gives Ok, and not that it gives Ok.
pub fn put_decimal(line: &mut [u8], at: usize, v: u64) -> usize
    requires { at + 20 ≤ length line.old }
    ensures upper_bound { result ≤ at + 20 }
    ensures wrote { Wrote line.old at (decimal_digits v) result line.new }
{
    if v < DECIMAL {
        return put_byte(line, at, b'0' + v as u8);
    }
    let next = put_decimal(line, at, v / DECIMAL);
    put_byte(line, next, b'0' + (v % DECIMAL) as u8)
}

// At most N bytes of text. Those of `bytes` after the first `len` are room.
#[derive(Drop)]
pub struct Line<const N: usize> {
    bytes: [u8; N],
    len: usize,
}

impl<const N: usize> Model for Line<N> {
    ghost Value = { List ℕ };

    ghost view = { λ l. take l.len l.bytes };

    ghost invariant = { λ l. l.len ≤ N };
}

impl<const N: usize> Line<N> {
    pub fn new() -> Self
        ensures { result ≡ [] }
    {
        Line {
            bytes: [0; N],
            len: 0,
        }
    }

    pub fn as_bytes(&self) -> &[u8]
        ensures { result.now ≡ self.now }
    {
        &self.bytes[..self.len]
    }

    // Nothing is written any more: room for N bytes again.
    pub fn clear(&mut self)
        ensures { self.new ≡ [] }
    {
        self.len = 0;
    }

    // The bytes of a text, for example a word.
    pub fn push_text(&mut self, text: &[u8])
        requires { length self.old + length text.now ≤ N }
        ensures length { length self.new ≡ length self.old + length text.now }
        ensures text { self.new ≡ self.old ++ text.now }
    {
        self.len = put_text(&mut self.bytes, self.len, text);
    }

    // The byte b, for example a space or the end of the line.
    pub fn push(&mut self, b: u8)
        requires { length self.old < N }
        ensures length { length self.new ≡ length self.old + 1 }
        ensures text { self.new ≡ self.old ++ b ∷ [] }
    {
        self.len = put_byte(&mut self.bytes, self.len, b);
    }

    // v in so many hexadecimal digits: its lowest ones.
    pub fn push_hex(&mut self, digits: usize, v: u32)
        requires { length self.old + digits ≤ N }
        ensures length { length self.new ≡ length self.old + digits }
        ensures text { self.new ≡ self.old ++ hex_digits digits v }
    {
        if digits == 0 {
            return;
        }
        self.push_hex(digits - 1, v / HEX);
        self.push(hex_digit((v % HEX) as u8));
    }

    // v in decimal: at most 20 digits.
    pub fn push_decimal(&mut self, v: u64)
        requires { length self.old + 20 ≤ N }
        ensures upper_bound { length self.new ≤ length self.old + 20 }
        ensures text { self.new ≡ self.old ++ decimal_digits v }
    {
        self.len = put_decimal(&mut self.bytes, self.len, v);
    }
}

// The digit of d: 0 to 9, then A to F.
fn hex_digit(d: u8) -> u8
    requires { d < 16 }
    ensures { result ≡ hex_digit d }
{
    if d < TEN { b'0' + d } else { b'A' + (d - TEN) }
}
