// The checks of take, serve, give, work and repair, in the order of their numbers: 4, 2, 1, 5, 3; and how much of the disk a step may write.
ghost use Rattle.std.specs.Prelude.{◌≡◌, true, ◌&&◌, List, [], ◌∷◌, ℕ, ◌*◌, length, eqb};
ghost use Rattle.wire.specs.Choice.{first_failed};
ghost use Rattle.model.specs.Sizes.{sector_size, check_size};
ghost use Rattle.model.specs.Disk.{Disk};
ghost use Rattle.store.specs.Areas.{record_size};
ghost use Rattle.store.specs.Record.{decode};
ghost use Rattle.store.specs.Sound.{sound};
ghost use Rattle.store.specs.Entries.{good_port, in_stage, mailbox_checks, serve_checks, work_checks, repair_checks};
ghost use Rattle.record.specs.DeviceMeaning.{as_stage};
ghost use Rattle.layout.specs.Answer.{answer_of};

use layout::answer::Refusal;
use layout::{CHECK_U64, MAILBOX, PORTS_U32, PRIVATE, SECTOR_U64};
use record::Stage;

// "port above 3": 1; "slot not in the stage the step needs": 3.
fn slot_checks(device: &[u8], port: u32, needed: Stage) -> Result<(), Refusal>
    requires { length device.now ≡ record_size }
    ensures { answer_of result ≡ first_failed (good_port port ∷ in_stage (as_stage needed) device.now port ∷ []) }
{
    if port >= PORTS_U32 {
        return Err(Refusal::BadPort);
    }
    if record::stage_at(device, port as usize) != needed {
        return Err(Refusal::BadStage);
    }
    Ok(())
}

// The checks of take and give. They read only the lengths of mailbox and private area, not their bytes.
pub fn mailbox_checks(
    device: &[u8],
    port: u32,
    mailbox_len: usize,
    area_len: usize,
    needed: Stage,
) -> Result<(), Refusal>
    ensures { (m a : List ℕ) → length m ≡ mailbox_len → length a ≡ area_len → answer_of result ≡ first_failed (mailbox_checks (as_stage needed) device.now port m a) }
{
    if !record_check::sound(device) {
        return Err(Refusal::BadRecord);
    }
    if mailbox_len != MAILBOX {
        return Err(Refusal::BadLength);
    }
    if area_len != PRIVATE {
        return Err(Refusal::BadLength);
    }
    slot_checks(device, port, needed)
}

// Whether a disk and a check area of these lengths are those of the record's N sectors.
fn is_disk(device: &[u8], disk_len: usize, check_len: usize) -> bool
    requires { sound device.now ≡ true }
    ensures { result ≡ (eqb disk_len (sector_size * (decode device.now).device.native) && eqb check_len (check_size * (decode device.now).device.native)) }
{
    let native = record::native_at(device);
    (disk_len as u64 == SECTOR_U64 * native) & (check_len as u64 == CHECK_U64 * native)
}

// V, the number of sectors of the visible disk.
pub fn visible_sectors(device: &[u8]) -> usize
    requires { sound device.now ≡ true }
    ensures { result ≡ (decode device.now).device.visible }
{
    record::visible_at(device) as usize
}

// The checks of work.
pub fn work_checks(
    device: &[u8],
    area_len: usize,
    disk_len: usize,
    check_len: usize,
) -> Result<(), Refusal>
    ensures { (a : List ℕ) (disk : Disk) → length a ≡ area_len → length disk.sectors ≡ disk_len → length disk.check_area ≡ check_len → answer_of result ≡ first_failed (work_checks device.now a disk) }
{
    if !record_check::sound(device) {
        return Err(Refusal::BadRecord);
    }
    if area_len != PRIVATE {
        return Err(Refusal::BadLength);
    }
    if !is_disk(device, disk_len, check_len) {
        return Err(Refusal::BadLength);
    }
    Ok(())
}

// The checks of serve: those of work, then port and stage.
pub fn serve_checks(
    device: &[u8],
    port: u32,
    area_len: usize,
    disk_len: usize,
    check_len: usize,
) -> Result<(), Refusal>
    ensures { (a : List ℕ) (disk : Disk) → length a ≡ area_len → length disk.sectors ≡ disk_len → length disk.check_area ≡ check_len → answer_of result ≡ first_failed (serve_checks device.now port a disk) }
{
    work_checks(device, area_len, disk_len, check_len)?;
    slot_checks(device, port, Stage::Held)
}

// The checks of repair: "mending at or above V is answer 5".
pub fn repair_checks(
    device: &[u8],
    disk_len: usize,
    check_len: usize,
    lba: u64,
) -> Result<(), Refusal>
    ensures { (disk : Disk) → length disk.sectors ≡ disk_len → length disk.check_area ≡ check_len → answer_of result ≡ first_failed (repair_checks device.now disk lba) }
{
    if !record_check::sound(device) {
        return Err(Refusal::BadRecord);
    }
    if !is_disk(device, disk_len, check_len) {
        return Err(Refusal::BadLength);
    }
    if lba >= record::visible_at(device) {
        return Err(Refusal::BadValue);
    }
    Ok(())
}
