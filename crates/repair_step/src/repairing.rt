// The repair of the sector at an LBA: what it reports, the sector and the record afterwards.
ghost use Rattle.std.specs.Prelude.{◌≡◌, true, ◌<◌};
ghost use Rattle.sector_check.specs.Reports.{report_number};
ghost use Rattle.model.specs.Disk.{disk_of, HasSize};
ghost use Rattle.store.specs.Record.{decode};
ghost use Rattle.store.specs.Sound.{sound};
ghost use Rattle.store.specs.Entries.{repair_done};

use layout::{CHECK_U64, SECTOR_U64};
use sector_check::Report;
use wire::Number;

// "An owner step reports 0 (check equal), 1 (bit 12 differs, 13 to 15 don't: it flips the data bit at the differing position) or 2 (else)".
pub fn repair(device: &mut [u8], disk: &mut [u8], check_area: &[u8], lba: u64) -> Report
    requires { (sound device.old ≡ true) × HasSize (decode device.old).device.visible (disk_of disk.old check_area.now) × (lba < (decode device.old).device.visible) }
    ensures report { report_number result ≡ (repair_done device.old (disk_of disk.old check_area.now) lba).report }
    ensures device { device.new ≡ (repair_done device.old (disk_of disk.old check_area.now) lba).record_area }
    ensures disk { disk.new ≡ (repair_done device.old (disk_of disk.old check_area.now) lba).sectors }
{
    let stored = u16::get(check_area, (CHECK_U64 * lba) as usize);
    let report = sector_check::repair(disk, (SECTOR_U64 * lba) as usize, stored);
    let d = record::decode(device);
    let e = device_update::repaired(d, report == Report::Flipped);
    record_write::write(device, e);
    report
}
