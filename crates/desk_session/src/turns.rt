// One turn: a mailbox of port 0 is taken, served and given, then work is called; and the line that reports it.
ghost use Rattle.std.specs.Prelude.{◌≡◌, ◌≤◌, length};
ghost use Rattle.model.specs.Disk.{disk_of};
ghost use Rattle.store.specs.Areas.{record_size};
ghost use Rattle.desk_session.specs.Turn.{Turned, served, given, worked, line_of};

use crate::report::{LINE, report};
use console::Line;
use layout::ata;
use sct_disk::{sct_give, sct_serve, sct_take, sct_work};

// "Each is taken, served, given, then worked.", whether a step is refused or not. Returns how many sectors the work wrote.
fn exchange(
    device: &mut [u8],
    area: &mut [u8],
    disk: &mut [u8],
    check_area: &mut [u8],
    mailbox: &mut [u8],
    n: u8,
) -> u64
    ensures { Turned device.old area.old (disk_of disk.old check_area.old) mailbox.old n result device.new area.new (disk_of disk.new check_area.new) mailbox.new }
{
    let _ = sct_take(device, 0, mailbox, area);
    let _ = sct_serve(device, 0, area, disk, check_area);
    let _ = sct_give(device, 0, mailbox, area);
    let written = sct_work(device, area, disk, check_area, u32::from(n));
    u64::from(written.unwrap_or(0))
}

// Processes record `number`, a work count and a mailbox, on areas and a disk of any length. Returns its line.
pub fn turn(
    number: u64,
    n: u8,
    mailbox: &mut [u8],
    device: &mut [u8],
    area: &mut [u8],
    disk: &mut [u8],
    check_area: &mut [u8],
) -> Line<LINE>
    requires in_bounds { 14 ≤ length mailbox.old }
    requires device_len { length device.old ≡ record_size }
    ensures line { result ≡ line_of device.old area.old (disk_of disk.old check_area.old) mailbox.old n number }
    ensures device { device.new ≡ (worked device.old area.old (disk_of disk.old check_area.old) mailbox.old n).record_area }
    ensures area { area.new ≡ (served device.old area.old (disk_of disk.old check_area.old) mailbox.old n).private_area }
    ensures disk { disk_of disk.new check_area.new ≡ (worked device.old area.old (disk_of disk.old check_area.old) mailbox.old n).disk }
    ensures mailbox { mailbox.new ≡ (given device.old area.old (disk_of disk.old check_area.old) mailbox.old n).mailbox }
{
    let written = exchange(device, area, disk, check_area, mailbox, n);
    let code = record::code_at(device);
    report(
        number,
        mailbox[ata::STATUS_AT],
        mailbox[ata::ERROR_AT],
        code,
        written,
    )
}
