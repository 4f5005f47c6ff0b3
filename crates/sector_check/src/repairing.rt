// How a sector is repaired: the bit is flipped where its stored and its computed check differ.
ghost use Rattle.std.specs.Prelude.{◌≡◌, ◌+◌, ◌<◌, ◌≤◌, length};
ghost use Rattle.std.proofs.lemmas.List.Edits.{sets};
ghost use Rattle.wire.specs.Parts.{part};
ghost use Rattle.sector_check.specs.Check.{flip};
ghost use Rattle.sector_check.specs.Repair.{report_of, repaired_sector};
ghost use Rattle.sector_check.specs.Reports.{report_number};

use crate::sector::check_of;
use layout::SECTOR;

// The number of positions in a sector, and so the value of a check's bit 12.
const POSITIONS: u16 = 8 * SECTOR as u16;

// What a repair finds: the checks equal, one bit that it flips, or a difference that it cannot mend.
#[derive(Clone, Copy, PartialEq, Eq)]
pub enum Report {
    Equal = 0,
    Flipped = 1,
    Uncorrectable = 2,
}

// Flips the bit at the position q of the sector at `at`.
fn flip_bit(s: &mut [u8], at: usize, q: usize)
    requires { (at + 512 ≤ length s.old) × (q < 4096) }
    ensures { s.new ≡ sets s.old at (flip (part s.old at 512) q) }
{
    let i = at + q / 8;
    s[i] = s[i] ^ (1u8 << (q % 8));
}

// Compares the stored check of the sector at `at` with the computed one, and flips the bit at the position where they differ, if it is one bit.
pub fn repair(s: &mut [u8], at: usize, stored: u16) -> Report
    requires { at + 512 ≤ length s.old }
    ensures value { report_number result ≡ report_of stored (part s.old at 512) }
    ensures s_after { s.new ≡ sets s.old at (repaired_sector stored (part s.old at 512)) }
{
    let difference = stored ^ check_of(s, at);
    if difference == 0 {
        return Report::Equal;
    }
    if difference / POSITIONS != 1 {
        return Report::Uncorrectable;
    }
    flip_bit(s, at, (difference % POSITIONS) as usize);
    Report::Flipped
}
