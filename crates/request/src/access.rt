// The checks of a data transfer (E1h) and of an access to one sector (24h and 34h).
ghost use Rattle.std.specs.Prelude.{◌≡◌};
ghost use Rattle.wire.specs.Choice.{first_failed};
ghost use Rattle.model.specs.Device.{table, Device};
ghost use Rattle.model.specs.Decide.{moves, sectors_of, data_checks, sector_checks};
ghost use Rattle.record.specs.DeviceMeaning.{as_transfer, as_direction};

use layout::{LONG_SECTORS_U16, ata, sct};
use record::{Direction, Transfer};

fn is_read(dir: Direction) -> bool
    ensures { result ≡ moves (as_direction dir) table }
{
    match dir {
        Direction::Read => true,
        Direction::Write => false,
    }
}

// Whether the pending transfer has this direction: the table and Read Long are read, a fill's sector and Write Long are written.
fn moves(dir: Direction, pending: Transfer) -> bool
    ensures { result ≡ moves (as_direction dir) (as_transfer pending) }
{
    match pending {
        Transfer::None => false,
        Transfer::Table => is_read(dir),
        Transfer::FillData(_, _) => !is_read(dir),
        Transfer::ReadLong(_) => is_read(dir),
        Transfer::WriteLong(_) => !is_read(dir),
    }
}

// The number of sectors that a transfer moves: "A long transfer is two sectors".
fn sectors_of(pending: Transfer) -> u16
    ensures { result ≡ sectors_of (as_transfer pending) }
{
    match pending {
        Transfer::None => 0,
        Transfer::Table => 1,
        Transfer::FillData(_, _) => 1,
        Transfer::ReadLong(_) => LONG_SECTORS_U16,
        Transfer::WriteLong(_) => LONG_SECTORS_U16,
    }
}

// "E1h is judged: lock 0012h; .. 000Bh; count not 1 0003h." W-202: "E1h wants count 2 for it and 1 for the others." 0 if nothing fails.
pub fn data_code(locked: bool, dir: Direction, count: u16, pending: Transfer) -> u16
    ensures { result ≡ first_failed (data_checks locked (as_direction dir) count (as_transfer pending)) }
{
    if locked {
        return sct::LOCKED;
    }
    if !moves(dir, pending) {
        return sct::NO_TRANSFER;
    }
    if count != sectors_of(pending) {
        return sct::COUNT_OVERFLOW;
    }
    sct::COMPLETE
}

// "Count (16 bits) other than 1: Error 04h. LBA at or above V: Error 10h. Locked: Error 04h, before both." 0 if nothing fails.
pub fn sector_error(locked: bool, visible: u64, count: u16, lba: u64) -> u8
    ensures { (d : Device) → d.locked ≡ locked → d.visible ≡ visible → result ≡ first_failed (sector_checks d count lba) }
{
    if locked {
        return ata::ERROR_ABORTED;
    }
    if count != 1 {
        return ata::ERROR_ABORTED;
    }
    if lba >= visible {
        return ata::ERROR_NOT_FOUND;
    }
    ata::NO_ERROR
}
