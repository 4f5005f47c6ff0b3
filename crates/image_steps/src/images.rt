// The steps with a saved image, save and power-on, and their checks.
ghost use Rattle.std.specs.Prelude.{◌≡◌, List, ℕ, length};
ghost use Rattle.wire.specs.Choice.{first_failed};
ghost use Rattle.model.specs.Disk.{Disk, disk_of};
ghost use Rattle.model.specs.Image.{whole_sectors, well_sized};
ghost use Rattle.store.specs.Entries.{save_checks, save_bytes, power_on_checks, power_on_bytes};
ghost use Rattle.layout.specs.Answer.{answer_of};

use layout::answer::Refusal;
use layout::{CHECK, NATIVE_LIMIT, PRIVATE, RECORD, SECTOR};

const MOST_SECTORS: usize = NATIVE_LIMIT as usize;

// The checks of a save.
fn save_checks(device: &[u8], image: &[u8], used: usize) -> Result<(), Refusal>
    ensures { answer_of result ≡ first_failed (save_checks device.now image.now used) }
{
    if !record_check::sound(device) {
        return Err(Refusal::BadRecord);
    }
    image::save_checks(record::native_at(device), image, used)
}

// "A save adds one entry behind the used length; other bytes stay."
pub fn save(device: &[u8], image: &mut [u8], used: u64) -> Result<(), Refusal>
    ensures value { answer_of result ≡ (save_bytes device.now image.old used).answer }
    ensures image { image.new ≡ (save_bytes device.now image.old used).image }
{
    let at = used as usize;
    save_checks(device, image, at)?;
    save::put_entry(image, at, device);
    Ok(())
}

// Whether a disk of this length is 1 to 16,777,216 whole sectors.
fn is_whole(disk_len: usize) -> bool
    ensures { result ≡ whole_sectors disk_len }
{
    (disk_len % SECTOR == 0) & ((1 <= disk_len / SECTOR) & (disk_len / SECTOR <= MOST_SECTORS))
}

// Whether a disk and a check area of these lengths are whole: "a check area of wrong length is answer 2".
fn is_disk(disk_len: usize, check_len: usize) -> bool
    ensures { (disk : Disk) → length disk.sectors ≡ disk_len → length disk.check_area ≡ check_len → result ≡ well_sized disk }
{
    is_whole(disk_len) & (check_len == CHECK * (disk_len / SECTOR))
}

// The checks of power-on. They read only the lengths of record, private area, disk and check area, not their bytes.
fn power_on_checks(
    device_len: usize,
    area_len: usize,
    disk_len: usize,
    check_len: usize,
    image: &[u8],
    used: usize,
) -> Result<(), Refusal>
    ensures { (r a : List ℕ) (disk : Disk) → length r ≡ device_len → length a ≡ area_len → length disk.sectors ≡ disk_len → length disk.check_area ≡ check_len → answer_of result ≡ first_failed (power_on_checks r a disk image.now used) }
{
    if device_len != RECORD {
        return Err(Refusal::BadLength);
    }
    if area_len != PRIVATE {
        return Err(Refusal::BadLength);
    }
    if !is_disk(disk_len, check_len) {
        return Err(Refusal::BadLength);
    }
    image::image_checks((disk_len / SECTOR) as u64, image, used)
}

// "Power-on from length 0 ..; otherwise the newest entry"; "private area all zeros"
pub fn power_on(
    device: &mut [u8],
    area: &mut [u8],
    disk: &[u8],
    check_area: &[u8],
    image: &[u8],
    used: u64,
) -> Result<(), Refusal>
    ensures value { answer_of result ≡ (power_on_bytes device.old area.old (disk_of disk.now check_area.now) image.now used).answer }
    ensures device { device.new ≡ (power_on_bytes device.old area.old (disk_of disk.now check_area.now) image.now used).record_area }
    ensures area { area.new ≡ (power_on_bytes device.old area.old (disk_of disk.now check_area.now) image.now used).private_area }
{
    let at = used as usize;
    power_on_checks(
        device.len(),
        area.len(),
        disk.len(),
        check_area.len(),
        image,
        at,
    )?;
    runs::zero_part(area, 0, PRIVATE);
    restore::put_restored(device, (disk.len() / SECTOR) as u64, &image[..at]);
    Ok(())
}
