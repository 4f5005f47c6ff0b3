// The repair step.
ghost use Rattle.std.specs.Prelude.{◌≡◌};
ghost use Rattle.model.specs.Disk.{disk_of};
ghost use Rattle.store.specs.Entries.{repair_bytes};
ghost use Rattle.sct_disk.specs.Result.{repair_reported};
ghost use Rattle.layout.specs.Answer.{answer_of};

use layout::answer::Refusal;
use layout::{CHECK, SECTOR};
use refusals::{repair_checks, visible_sectors};
use sector_check::Report;

// "An owner step reports 0 (check equal), 1 (bit 12 differs, 13 to 15 don't: it flips the data bit at the differing position) or 2 (else)".
// "a refused mending reports 0"
pub fn sct_repair(
    device: &mut [u8],
    disk: &mut [u8],
    check_area: &[u8],
    lba: u64,
) -> Result<Report, Refusal>
    ensures value { answer_of result ≡ (repair_bytes device.old (disk_of disk.old check_area.now) lba).answer }
    ensures report { repair_reported result ≡ (repair_bytes device.old (disk_of disk.old check_area.now) lba).report }
    ensures device { device.new ≡ (repair_bytes device.old (disk_of disk.old check_area.now) lba).record_area }
    ensures disk { disk.new ≡ (repair_bytes device.old (disk_of disk.old check_area.now) lba).sectors }
{
    repair_checks(device, disk.len(), check_area.len(), lba)?;
    let visible = visible_sectors(device);
    let report = repair_step::repair(
        device,
        &mut disk[..SECTOR * visible],
        &check_area[..CHECK * visible],
        lba,
    );
    Ok(report)
}
