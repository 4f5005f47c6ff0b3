// The machine of a session: the bytes that the entries are lent, and a turn on them.
ghost use Rattle.std.specs.Prelude.{◌≡◌, ◌≤◌, length};
ghost use Rattle.model.specs.Disk.{disk_of};
ghost use Rattle.desk_session.specs.Start.{fresh_disk, started};
ghost use Rattle.desk_session.specs.Turn.{served, given, worked, line_of};

use crate::report::LINE;
use crate::turns::turn;
use console::Line;
use layout::{CHECK, PRIVATE, RECORD, SECTOR};
use sct_disk::sct_power_on;

// "a fresh 64-sector disk"
const SECTORS: usize = 64;

const DISK: usize = SECTORS * SECTOR;

const CHECKS: usize = SECTORS * CHECK;

// The bytes that the entries are lent.
#[derive(Drop)]
pub struct Machine {
    pub device: [u8; RECORD],
    pub area: [u8; PRIVATE],
    pub disk: [u8; DISK],
    pub check_area: [u8; CHECKS],
}

impl Machine {
    // A machine of zeros, after a power-on without an image.
    pub fn power_on() -> Machine
        ensures device { result.device ≡ started.record_area }
        ensures area { result.area ≡ started.private_area }
        ensures disk { disk_of result.disk result.check_area ≡ fresh_disk }
    {
        let mut machine = Machine {
            device: [0; RECORD],
            area: [0; PRIVATE],
            disk: [0; DISK],
            check_area: [0; CHECKS],
        };
        let _ = sct_power_on(
            &mut machine.device,
            &mut machine.area,
            &machine.disk,
            &machine.check_area,
            b"",
            0,
        );
        machine
    }

    // Processes record `number`, a work count and a mailbox. Returns its line.
    pub fn turn(&mut self, number: u64, n: u8, mailbox: &mut [u8]) -> Line<LINE>
        requires { 14 ≤ length mailbox.old }
        ensures line { result ≡ line_of self.old.device self.old.area (disk_of self.old.disk self.old.check_area) mailbox.old n number }
        ensures device { self.new.device ≡ (worked self.old.device self.old.area (disk_of self.old.disk self.old.check_area) mailbox.old n).record_area }
        ensures area { self.new.area ≡ (served self.old.device self.old.area (disk_of self.old.disk self.old.check_area) mailbox.old n).private_area }
        ensures disk { disk_of self.new.disk self.new.check_area ≡ (worked self.old.device self.old.area (disk_of self.old.disk self.old.check_area) mailbox.old n).disk }
        ensures mailbox { mailbox.new ≡ (given self.old.device self.old.area (disk_of self.old.disk self.old.check_area) mailbox.old n).mailbox }
    {
        turn(
            number,
            n,
            mailbox,
            &mut self.device,
            &mut self.area,
            &mut self.disk,
            &mut self.check_area,
        )
    }
}
