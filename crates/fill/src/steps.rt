// How a running fill advances: how many sectors a budget allows, the sectors written, and the device after them.
ghost use Rattle.std.specs.Prelude.{◌≡◌, true, ◌+◌, ◌*◌, ◌-◌, ◌≤◌, length};
ghost use Rattle.std.proofs.lemmas.List.Edits.{sets};
ghost use Rattle.wire.specs.Numbers.{le};
ghost use Rattle.wire.specs.Parts.{repeated};
ghost use Rattle.sector_check.specs.Check.{check_of};
ghost use Rattle.model.specs.Sizes.{sector_size, check_size};
ghost use Rattle.model.specs.Disk.{disk_of, HasSize};
ghost use Rattle.model.specs.Fill.{remaining, work_count};
ghost use Rattle.record.specs.DeviceMeaning.{as_fill};
ghost use Rattle.store.specs.Areas.{private_size};
ghost use Rattle.store.specs.Store.{fill_sector_of};
ghost use Rattle.store.specs.Record.{decode};
ghost use Rattle.store.specs.Sound.{sound};
ghost use Rattle.store.specs.Entries.{work_done};
ghost use Rattle.device_update.specs.Change.{Changed};
ghost use Rattle.fill.specs.Moved.{moved_on};

use layout::{CHECK_U64, FILL_AT, SECTOR, SECTOR_U64};
use record::{Device, Fill};
use sector_check::check_of;

// The number of sectors that are left of a fill.
fn remaining(fill: Fill) -> u64
    ensures { result ≡ remaining (as_fill fill) }
{
    match fill {
        Fill::Idle => 0,
        Fill::Running(_, next, end) => end.saturating_sub(next),
    }
}

// "k is the lesser of n and end - next (0 with no fill)"
fn count_of(n: u32, fill: Fill) -> u32
    ensures { result ≡ work_count n (as_fill fill) }
{
    (n as u64).min(remaining(fill)) as u32
}

// Writes the fill's sector to the k places from `next` on.
fn write_sectors(disk: &mut [u8], area: &[u8], next: u64, k: u32)
    requires { (length area.now ≡ private_size) × (sector_size * (next + k) ≤ length disk.old) }
    ensures { disk.new ≡ sets disk.old (sector_size * next) (repeated k (fill_sector_of area.now)) }
{
    let at = (SECTOR_U64 * next) as usize;
    for j in 0..k as usize {
        runs::copy_part(disk, at + SECTOR * j, area, FILL_AT, SECTOR);
    }
}

// Writes the check bytes of the fill's sector to the same k places. They are computed once, and only if a sector is written.
fn write_check_bytes(check_area: &mut [u8], area: &[u8], next: u64, k: u32)
    requires { (length area.now ≡ private_size) × (check_size * (next + k) ≤ length check_area.old) }
    ensures { check_area.new ≡ sets check_area.old (check_size * next) (repeated k (le check_size (check_of (fill_sector_of area.now)))) }
{
    if k == 0 {
        return;
    }
    let check = check_of(area, FILL_AT);
    runs::repeat(check_area, (CHECK_U64 * next) as usize, check, k as usize);
}

// The device after k sectors of its fill.
fn moved_on(d: Device, k: u32) -> Device
    requires { k ≤ remaining (as_fill d.command.fill) }
    ensures { Changed (moved_on k) d result }
{
    if k == 0 {
        return d;
    }
    let c = d.command;
    let fill = c.fill;
    let Fill::Running(first, next, end) = fill else {
        return d;
    };
    device_update::sector_written(d, first, next + k as u64, end)
}

// "writes the next sectors of a running fill, as many as n and what is left allow, and reports how many it wrote": n is a budget.
pub fn work(device: &mut [u8], area: &[u8], disk: &mut [u8], check_area: &mut [u8], n: u32) -> u32
    requires { (sound device.old ≡ true) × (length area.now ≡ private_size) × HasSize (decode device.old).device.visible (disk_of disk.old check_area.old) }
    ensures count { result ≡ (work_done device.old area.now (disk_of disk.old check_area.old) n).count }
    ensures bytes { device.new ≡ (work_done device.old area.now (disk_of disk.old check_area.old) n).record_area }
    ensures disk { disk_of disk.new check_area.new ≡ (work_done device.old area.now (disk_of disk.old check_area.old) n).disk }
{
    let d = record::decode(device);
    let c = d.command;
    let fill = c.fill;
    let k = count_of(n, fill);
    let next = record::next_sector(fill);
    write_sectors(disk, area, next, k);
    write_check_bytes(check_area, area, next, k);
    let e = moved_on(d, k);
    record_write::write(device, e);
    k
}
