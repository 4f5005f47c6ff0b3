// The work step.
ghost use Rattle.std.specs.Prelude.{◌≡◌};
ghost use Rattle.model.specs.Disk.{disk_of};
ghost use Rattle.store.specs.Entries.{work_bytes};
ghost use Rattle.sct_disk.specs.Result.{reported};
ghost use Rattle.layout.specs.Answer.{answer_of};

use layout::answer::Refusal;
use layout::{CHECK, SECTOR};
use refusals::{visible_sectors, work_checks};

// "Work (n, any 32-bit number): writes the next sectors of a running fill, as many as n and what is left allow, and reports how many it
// wrote." A refused work reports 0: `reported`.
pub fn sct_work(
    device: &mut [u8],
    area: &[u8],
    disk: &mut [u8],
    check_area: &mut [u8],
    n: u32,
) -> Result<u32, Refusal>
    ensures value { answer_of result ≡ (work_bytes device.old area.now (disk_of disk.old check_area.old) n).answer }
    ensures count { reported result ≡ (work_bytes device.old area.now (disk_of disk.old check_area.old) n).count }
    ensures device { device.new ≡ (work_bytes device.old area.now (disk_of disk.old check_area.old) n).record_area }
    ensures disk { disk.new ≡ (work_bytes device.old area.now (disk_of disk.old check_area.old) n).disk.sectors }
    ensures check_area { check_area.new ≡ (work_bytes device.old area.now (disk_of disk.old check_area.old) n).disk.check_area }
{
    work_checks(device, area.len(), disk.len(), check_area.len())?;
    let visible = visible_sectors(device);
    let count = fill::work(
        device,
        area,
        &mut disk[..SECTOR * visible],
        &mut check_area[..CHECK * visible],
        n,
    );
    Ok(count)
}
