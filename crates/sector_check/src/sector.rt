// The check of a sector, from its rows of words.
ghost use Rattle.std.specs.Prelude.{◌≡◌, ◌+◌, ◌*◌, ◌≤◌, length};
ghost use Rattle.std.specs.Int.Bits.{bit_xor};
ghost use Rattle.wire.specs.Parts.{part};
ghost use Rattle.sector_check.specs.Check.{check_of};
ghost use Rattle.sector_check.specs.Word.{parity};

use crate::row::rows_of;
use crate::word::{places_of, weighed};

// Bits 6 to 8 of the check, which tell a word in its row: each is a parity.
fn column_of(fours: u64, twos: u64, ones: u64) -> u64
    ensures { result ≡ bit_xor (parity fours * 256) (bit_xor (parity twos * 128) (parity ones * 64)) }
{
    weighed(fours, 256) ^ (weighed(twos, 128) ^ weighed(ones, 64))
}

// The check of the sector at `at`. It takes a run and a place, as its callers have them: for a `&[u8; 512]` each would need a branch that is never taken.
pub fn check_of(s: &[u8], at: usize) -> u16
    requires { at + 512 ≤ length s.now }
    ensures { result ≡ check_of (part s.now at 512) }
{
    let rows = rows_of(s, at);
    let column = column_of(rows.fours, rows.twos, rows.ones);
    (rows.odd ^ (column ^ places_of(rows.all))) as u16
}
