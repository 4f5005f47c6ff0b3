// The twelve entries as the firmware's C code calls them: each calls the function of its name in sct_disk, gives its
// answer by number, and states its clauses again.
// A slice crosses as a pointer and a length.
#![tactic(auto)]

ghost use Rattle.model.specs.Disk.{disk_of};
ghost use Rattle.sct_disk.specs.Result.{result_of};
ghost use Rattle.std.specs.Prelude.{◌≡◌};
ghost use Rattle.store.specs.Entries.{convert_bytes, give_bytes, lock_bytes, power_on_bytes, repair_bytes, sample_bytes, save_bytes, serve_bytes, set_visible_bytes, take_bytes, unlock_bytes, work_bytes};

use layout::answer::answer_of;
use sct_disk::result_of;

#[unsafe(no_mangle)]
pub extern "C" fn sct_take(device: &mut [u8], port: u32, mailbox: &[u8], area: &mut [u8]) -> u32
    ensures value { result ≡ (take_bytes device.old port mailbox.now area.old).answer }
    ensures device { device.new ≡ (take_bytes device.old port mailbox.now area.old).record_area }
    ensures area { area.new ≡ (take_bytes device.old port mailbox.now area.old).private_area }
{
    answer_of(sct_disk::sct_take(device, port, mailbox, area))
}

#[unsafe(no_mangle)]
pub extern "C" fn sct_serve(
    device: &mut [u8],
    port: u32,
    area: &mut [u8],
    disk: &mut [u8],
    check_area: &mut [u8],
) -> u32
    ensures value { result ≡ (serve_bytes device.old port area.old (disk_of disk.old check_area.old)).answer }
    ensures device { device.new ≡ (serve_bytes device.old port area.old (disk_of disk.old check_area.old)).record_area }
    ensures area { area.new ≡ (serve_bytes device.old port area.old (disk_of disk.old check_area.old)).private_area }
    ensures disk { disk.new ≡ (serve_bytes device.old port area.old (disk_of disk.old check_area.old)).disk.sectors }
    ensures check_area { check_area.new ≡ (serve_bytes device.old port area.old (disk_of disk.old check_area.old)).disk.check_area }
{
    answer_of(sct_disk::sct_serve(device, port, area, disk, check_area))
}

#[unsafe(no_mangle)]
pub extern "C" fn sct_give(device: &mut [u8], port: u32, mailbox: &mut [u8], area: &[u8]) -> u32
    ensures value { result ≡ (give_bytes device.old port mailbox.old area.now).answer }
    ensures device { device.new ≡ (give_bytes device.old port mailbox.old area.now).record_area }
    ensures mailbox { mailbox.new ≡ (give_bytes device.old port mailbox.old area.now).mailbox }
{
    answer_of(sct_disk::sct_give(device, port, mailbox, area))
}

#[unsafe(no_mangle)]
pub extern "C" fn sct_work(
    device: &mut [u8],
    area: &[u8],
    disk: &mut [u8],
    check_area: &mut [u8],
    n: u32,
) -> u64
    ensures value { result ≡ result_of (work_bytes device.old area.now (disk_of disk.old check_area.old) n).answer (work_bytes device.old area.now (disk_of disk.old check_area.old) n).count }
    ensures device { device.new ≡ (work_bytes device.old area.now (disk_of disk.old check_area.old) n).record_area }
    ensures disk { disk.new ≡ (work_bytes device.old area.now (disk_of disk.old check_area.old) n).disk.sectors }
    ensures check_area { check_area.new ≡ (work_bytes device.old area.now (disk_of disk.old check_area.old) n).disk.check_area }
{
    result_of(sct_disk::sct_work(device, area, disk, check_area, n))
}

#[unsafe(no_mangle)]
pub extern "C" fn sct_lock(device: &mut [u8]) -> u32
    ensures value { result ≡ (lock_bytes device.old).answer }
    ensures device { device.new ≡ (lock_bytes device.old).record_area }
{
    answer_of(sct_disk::sct_lock(device))
}

#[unsafe(no_mangle)]
pub extern "C" fn sct_unlock(device: &mut [u8]) -> u32
    ensures value { result ≡ (unlock_bytes device.old).answer }
    ensures device { device.new ≡ (unlock_bytes device.old).record_area }
{
    answer_of(sct_disk::sct_unlock(device))
}

#[unsafe(no_mangle)]
pub extern "C" fn sct_set_visible(device: &mut [u8], v: u64) -> u32
    ensures value { result ≡ (set_visible_bytes device.old v).answer }
    ensures device { device.new ≡ (set_visible_bytes device.old v).record_area }
{
    answer_of(sct_disk::sct_set_visible(device, v))
}

#[unsafe(no_mangle)]
pub extern "C" fn sct_sample(device: &mut [u8], reading: u8) -> u32
    ensures value { result ≡ (sample_bytes device.old reading).answer }
    ensures device { device.new ≡ (sample_bytes device.old reading).record_area }
{
    answer_of(sct_disk::sct_sample(device, reading))
}

#[unsafe(no_mangle)]
pub extern "C" fn sct_repair(device: &mut [u8], disk: &mut [u8], check_area: &[u8], lba: u64) -> u64
    ensures value { result ≡ result_of (repair_bytes device.old (disk_of disk.old check_area.now) lba).answer (repair_bytes device.old (disk_of disk.old check_area.now) lba).report }
    ensures device { device.new ≡ (repair_bytes device.old (disk_of disk.old check_area.now) lba).record_area }
    ensures disk { disk.new ≡ (repair_bytes device.old (disk_of disk.old check_area.now) lba).sectors }
{
    result_of(sct_disk::sct_repair(device, disk, check_area, lba).map(|report| report as u32))
}

#[unsafe(no_mangle)]
pub extern "C" fn sct_save(device: &[u8], image: &mut [u8], used: u64) -> u32
    ensures value { result ≡ (save_bytes device.now image.old used).answer }
    ensures image { image.new ≡ (save_bytes device.now image.old used).image }
{
    answer_of(sct_disk::sct_save(device, image, used))
}

#[unsafe(no_mangle)]
pub extern "C" fn sct_power_on(
    device: &mut [u8],
    area: &mut [u8],
    disk: &[u8],
    check_area: &[u8],
    image: &[u8],
    used: u64,
) -> u32
    ensures value { result ≡ (power_on_bytes device.old area.old (disk_of disk.now check_area.now) image.now used).answer }
    ensures device { device.new ≡ (power_on_bytes device.old area.old (disk_of disk.now check_area.now) image.now used).record_area }
    ensures area { area.new ≡ (power_on_bytes device.old area.old (disk_of disk.now check_area.now) image.now used).private_area }
{
    answer_of(sct_disk::sct_power_on(device, area, disk, check_area, image, used))
}

#[unsafe(no_mangle)]
pub extern "C" fn sct_convert(image: &mut [u8], used: u64, form: u32) -> u32
    ensures value { result ≡ (convert_bytes image.old used form).answer }
    ensures image { image.new ≡ (convert_bytes image.old used form).image }
{
    answer_of(sct_disk::sct_convert(image, used, form))
}
