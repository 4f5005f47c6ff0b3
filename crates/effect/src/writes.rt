// What a decision writes: a sector on the disk with its check bytes, or the sector of a fill in the private area; and the device afterwards.
ghost use Rattle.std.specs.Prelude.{◌≡◌, List, ℕ, ◌+◌, ◌≤◌, ◌<◌, length};
ghost use Rattle.wire.specs.Parts.{part};
ghost use Rattle.model.specs.Sizes.{sector_size, port_count};
ghost use Rattle.model.specs.Disk.{checked, disk_of, with_sector};
ghost use Rattle.model.specs.Registers.{data_of, long_data_of};
ghost use Rattle.store.specs.Areas.{private_size};
ghost use Rattle.store.specs.Store.{slot_bytes};
ghost use Rattle.store.specs.Entries.{with_fill_sector};
ghost use Rattle.device_update.specs.Change.{Changed};
ghost use Rattle.decision.specs.DecisionMeaning.{as_writing};
ghost use Rattle.effect.specs.Effects.{device_after, disk_after, Within, WritesWithin};

use decision::Writing;
use layout::{CHECK_U64, MAILBOX, REGISTERS, SECTOR, SECTOR_U64};
use record::Device;
use sector_check::check_of;
use wire::Number;

// Writes the sector of the private area at `at`, with this check number, to the sector at an LBA.
fn store(area: &[u8], at: usize, check: u16, disk: &mut [u8], check_area: &mut [u8], lba: u64)
    requires { (at + sector_size ≤ length area.now) × Within (disk_of disk.old check_area.old) lba }
    ensures { disk_of disk.new check_area.new ≡ with_sector lba (record { content = part area.now at sector_size; check = check }) (disk_of disk.old check_area.old) }
{
    runs::copy_part(disk, (SECTOR_U64 * lba) as usize, area, at, SECTOR);
    check.put(check_area, (CHECK_U64 * lba) as usize);
}

// An ordinary write, of the data of slot p: "Every ordinary write sets them."
fn write_sector(area: &[u8], disk: &mut [u8], check_area: &mut [u8], p: usize, lba: u64)
    requires { (length area.now ≡ private_size) × (p < port_count) × Within (disk_of disk.old check_area.old) lba }
    ensures { disk_of disk.new check_area.new ≡ with_sector lba (checked (data_of (slot_bytes p area.now))) (disk_of disk.old check_area.old) }
{
    let at = MAILBOX * p + REGISTERS;
    let check = check_of(area, at);
    store(area, at, check, disk, check_area, lba);
}

// "Write Long stores what it is sent, without judging it": the data of slot p, and the check bytes behind it.
fn write_long(area: &[u8], disk: &mut [u8], check_area: &mut [u8], p: usize, lba: u64)
    requires { (length area.now ≡ private_size) × (p < port_count) × Within (disk_of disk.old check_area.old) lba }
    ensures { disk_of disk.new check_area.new ≡ with_sector lba (long_data_of (slot_bytes p area.now)) (disk_of disk.old check_area.old) }
{
    let at = MAILBOX * p + REGISTERS;
    let check = u16::get(area, at + SECTOR);
    store(area, at, check, disk, check_area, lba);
}

// Writes what is to be written from slot p.
pub fn write(area: &mut [u8], disk: &mut [u8], check_area: &mut [u8], p: usize, writes: Writing)
    requires { (length area.old ≡ private_size) × (p < port_count) × WritesWithin (disk_of disk.old check_area.old) writes }
    ensures area { area.new ≡ with_fill_sector (as_writing writes (slot_bytes p area.old)) area.old }
    ensures disk { disk_of disk.new check_area.new ≡ disk_after (as_writing writes (slot_bytes p area.old)) (disk_of disk.old check_area.old) }
{
    match writes {
        Writing::Nothing => {}
        Writing::Sector(lba) => write_sector(area, disk, check_area, p, lba),
        Writing::LongSector(lba) => write_long(area, disk, check_area, p, lba),
        Writing::PatternFill(_, _) => fill::put_pattern(area, p),
        Writing::DataFill(_, _) => fill::put_data(area, p),
    }
}

// The device after the write: the flag "is cleared by any sector written"; a fill that begins is running.
pub fn device_after(d: Device, writes: Writing) -> Device
    ensures { (m : List ℕ) → Changed (device_after (as_writing writes m)) d result }
{
    match writes {
        Writing::Nothing => d,
        Writing::Sector(_) => device_update::with_flag_cleared(d),
        Writing::LongSector(_) => device_update::with_flag_cleared(d),
        Writing::PatternFill(first, end) => device_update::start_fill(d, first, end),
        Writing::DataFill(first, end) => device_update::start_fill(d, first, end),
    }
}
