// A sector's 64 words in eight rows of eight: what a row gives, and what all rows give.
ghost use Rattle.std.specs.Prelude.{◌+◌, ◌≤◌, length};
ghost use Rattle.sector_check.specs.Row.{IsRow, AreRows};

use crate::word::{taken, weighed};
use layout::SECTOR;
use wire::Number;

// The bytes of a word and the words of a row.
const WORD: usize = 8;

const WORDS: usize = 8;

// The bytes of a row; its bits; the number of rows in a sector, also as a u64.
const ROW: usize = WORD * WORDS;

const ROW_BITS: u64 = 8 * ROW as u64;

const ROWS: usize = SECTOR / ROW;

const ROWS_U64: u64 = ROWS as u64;

// The exclusive or of a row's words, and of those whose number in the row has the bit for one, two or four.
#[derive(Clone, Copy)]
pub struct Row {
    pub all: u64,
    pub ones: u64,
    pub twos: u64,
    pub fours: u64,
}

// The same of all rows, and the exclusive or of 4096 plus the position of each row whose parity is 1.
#[derive(Clone, Copy)]
pub struct Rows {
    pub all: u64,
    pub ones: u64,
    pub twos: u64,
    pub fours: u64,
    pub odd: u64,
}

// The row at `at`.
fn row_of(s: &[u8], at: usize) -> Row
    requires { at + 64 ≤ length s.now }
    ensures { IsRow s.now at result.all result.ones result.twos result.fours }
{
    let mut row = Row {
        all: 0,
        ones: 0,
        twos: 0,
        fours: 0,
    };
    for i in 0..WORDS {
        let word = u64::get(s, at + WORD * i);
        row.all ^= word;
        row.ones ^= taken(i % 2, word);
        row.twos ^= taken(i / 2 % 2, word);
        row.fours ^= taken(i / 4 % 2, word);
    }
    row
}

// The rows of the sector at `at`.
pub fn rows_of(s: &[u8], at: usize) -> Rows
    requires { at + 512 ≤ length s.now }
    ensures { AreRows s.now at result.all result.ones result.twos result.fours result.odd }
{
    let mut all: u64 = 0;
    let mut ones: u64 = 0;
    let mut twos: u64 = 0;
    let mut fours: u64 = 0;
    let mut odd: u64 = 0;
    for k in 0..ROWS {
        let row = row_of(s, at + ROW * k);
        all ^= row.all;
        ones ^= row.ones;
        twos ^= row.twos;
        fours ^= row.fours;
        odd ^= weighed(row.all, ROW_BITS * (ROWS_U64 + k as u64));
    }
    Rows {
        all,
        ones,
        twos,
        fours,
        odd,
    }
}
