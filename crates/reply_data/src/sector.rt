// How the replies that carry data are written: the status sector (Table 11 of document 001), the temperature table, a sector of the disk, a long sector.
ghost use Rattle.std.specs.Prelude.{◌≡◌, ℕ, ◌+◌, ◌*◌, ◌≤◌, List, [], length};
ghost use Rattle.std.proofs.lemmas.List.Edits.{sets};
ghost use Rattle.wire.specs.Parts.{part};
ghost use Rattle.wire.specs.Layout.{stores, placed};
ghost use Rattle.model.specs.Sizes.{sector_size, check_size, mailbox_size};
ghost use Rattle.model.specs.Disk.{disk_of, sector_at};
ghost use Rattle.model.specs.Registers.{reply_bytes};
ghost use Rattle.model.specs.Perform.{read_reply, long_bytes};
ghost use Rattle.model.specs.Status.{drive_state, status_head, status_command, status_temperatures, status_sector};
ghost use Rattle.store.specs.Areas.{record_size, head_size};
ghost use Rattle.record.specs.DeviceMeaning.{as_fill, as_thermal, as_command, as_device};
ghost use Rattle.reply.specs.ReplyMeaning.{as_registers};

use layout::{CHECK_U64, REGISTERS, SECTOR, SECTOR_U64, TABLE_AT, ata, status};
use record::{Command, Device, Fill, Thermal};
use reply::{Reply, put_reply, refused};
use runs::copy_part;
use sector_check::check_of;
use wire::Number;

// "state at 10 (0, or 5 with a fill)"
fn drive_state(fill: Fill) -> u8
    ensures { result ≡ drive_state (as_fill fill) }
{
    match fill {
        Fill::Idle => 0,
        Fill::Running(_, _, _) => status::STATE_IN_BACKGROUND,
    }
}

// "format 0002h; version 0001h at 2; spec 0001h at 4; flag bit 0 at 6; state at 10"
fn put_head(area: &mut [u8], at: usize, initialized: bool, fill: Fill)
    requires { at + sector_size ≤ length area.old }
    ensures { area.new ≡ stores (placed at (status_head initialized (as_fill fill))) area.old }
{
    status::FORMAT.put(area, at);
    status::VERSION.put(area, at + status::VERSION_AT);
    status::SPEC.put(area, at + status::SPEC_AT);
    (wire::bit_of(initialized) as u32).put(area, at + status::FLAGS_AT);
    drive_state(fill).put(area, at + status::STATE_AT);
}

// "code 14; action 16; function 18; LBA 40-47 the next sector, 0 with no fill"
fn put_command(area: &mut [u8], at: usize, c: Command)
    requires { at + sector_size ≤ length area.old }
    ensures { area.new ≡ stores (placed at (status_command (as_command c []))) area.old }
{
    c.code.put(area, at + status::CODE_AT);
    c.action.put(area, at + status::ACTION_AT);
    c.function.put(area, at + status::FUNCTION_AT);
    let fill = c.fill;
    record::next_sector(fill).put(area, at + status::LBA_AT);
}

// "temperatures at 200 (now), 202 (this power cycle), 204 (life)"
fn put_temperatures(area: &mut [u8], at: usize, t: Thermal)
    requires { at + sector_size ≤ length area.old }
    ensures { area.new ≡ stores (placed at (status_temperatures (as_thermal t []))) area.old }
{
    t.current.put(area, at + status::CURRENT_AT);
    t.cycle_maximum.put(area, at + status::CYCLE_MAXIMUM_AT);
    t.life_maximum.put(area, at + status::LIFE_MAXIMUM_AT);
}

// The status sector. "All else 0."
pub fn put_status(area: &mut [u8], at: usize, reply: Reply, d: Device)
    requires { at + mailbox_size ≤ length area.old }
    ensures { (h : List ℕ) → area.new ≡ sets area.old at (reply_bytes (as_registers reply) (status_sector (as_device d h))) }
{
    put_reply(area, at, reply);
    let c = d.command;
    let fill = c.fill;
    put_head(area, at + REGISTERS, d.initialized, fill);
    put_command(area, at + REGISTERS, c);
    let t = d.thermal;
    put_temperatures(area, at + REGISTERS, t);
}

// The temperature table: "A table is sent as it stands at the E1h read." It is the record's second half.
pub fn put_table(area: &mut [u8], at: usize, reply: Reply, device: &[u8])
    requires { (at + mailbox_size ≤ length area.old) × (record_size ≤ length device.now) }
    ensures { area.new ≡ sets area.old at (reply_bytes (as_registers reply) (part device.now head_size sector_size)) }
{
    put_reply(area, at, reply);
    copy_part(area, at + REGISTERS, device, TABLE_AT, SECTOR);
}

// The sector of the disk at an LBA.
fn put_sector(area: &mut [u8], at: usize, reply: Reply, disk: &[u8], lba: u64)
    requires { (at + mailbox_size ≤ length area.old) × (sector_size * lba + sector_size ≤ length disk.now) }
    ensures { area.new ≡ sets area.old at (reply_bytes (as_registers reply) (part disk.now (sector_size * lba) sector_size)) }
{
    put_reply(area, at, reply);
    copy_part(
        area,
        at + REGISTERS,
        disk,
        (SECTOR_U64 * lba) as usize,
        SECTOR,
    );
}

// The reply to a read of the sector at an LBA: "a read of a sector whose check differs has Error 40h".
pub fn put_read(area: &mut [u8], at: usize, reply: Reply, disk: &[u8], check_area: &[u8], lba: u64)
    requires { (at + mailbox_size ≤ length area.old) × (sector_size * lba + sector_size ≤ length disk.now) × (check_size * lba + check_size ≤ length check_area.now) }
    ensures { area.new ≡ sets area.old at (read_reply (as_registers reply) (sector_at lba (disk_of disk.now check_area.now))) }
{
    let stored = u16::get(check_area, (CHECK_U64 * lba) as usize);
    if stored != check_of(disk, (SECTOR_U64 * lba) as usize) {
        put_reply(area, at, refused(ata::ERROR_UNCORRECTABLE));
        return;
    }
    put_sector(area, at, reply, disk, lba);
}

// The reply of Read Long: "Read Long sends the two check bytes as stored, zeros behind".
pub fn put_long(area: &mut [u8], at: usize, reply: Reply, disk: &[u8], check_area: &[u8], lba: u64)
    requires { (at + mailbox_size ≤ length area.old) × (sector_size * lba + sector_size ≤ length disk.now) × (check_size * lba + check_size ≤ length check_area.now) }
    ensures { area.new ≡ sets area.old at (reply_bytes (as_registers reply) (long_bytes (sector_at lba (disk_of disk.now check_area.now)))) }
{
    put_sector(area, at, reply, disk, lba);
    let stored = u16::get(check_area, (CHECK_U64 * lba) as usize);
    stored.put(area, at + REGISTERS + SECTOR);
}
