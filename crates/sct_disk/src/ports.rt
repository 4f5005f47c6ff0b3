// The steps of a port: take, serve, give.
ghost use Rattle.std.specs.Prelude.{◌≡◌};
ghost use Rattle.model.specs.Disk.{disk_of};
ghost use Rattle.store.specs.Entries.{take_bytes, serve_bytes, give_bytes};
ghost use Rattle.layout.specs.Answer.{answer_of};

use layout::answer::Refusal;
use layout::{CHECK, MAILBOX, SECTOR};
use record::Stage;
use refusals::{mailbox_checks, serve_checks, visible_sectors};

// "Take (port): copies the mailbox into the port's slot. Slot goes from empty to held."
pub fn sct_take(
    device: &mut [u8],
    port: u32,
    mailbox: &[u8],
    area: &mut [u8],
) -> Result<(), Refusal>
    ensures value { answer_of result ≡ (take_bytes device.old port mailbox.now area.old).answer }
    ensures device { device.new ≡ (take_bytes device.old port mailbox.now area.old).record_area }
    ensures area { area.new ≡ (take_bytes device.old port mailbox.now area.old).private_area }
{
    mailbox_checks(device, port, mailbox.len(), area.len(), Stage::Empty)?;
    let p = port as usize;
    runs::copy_part(area, MAILBOX * p, mailbox, 0, MAILBOX);
    record_write::put_stage(device, p, Stage::Held);
    Ok(())
}

// "Serve (port): answers the held request from the slot alone and leaves the reply in the slot. Held to answered."
pub fn sct_serve(
    device: &mut [u8],
    port: u32,
    area: &mut [u8],
    disk: &mut [u8],
    check_area: &mut [u8],
) -> Result<(), Refusal>
    ensures value { answer_of result ≡ (serve_bytes device.old port area.old (disk_of disk.old check_area.old)).answer }
    ensures device { device.new ≡ (serve_bytes device.old port area.old (disk_of disk.old check_area.old)).record_area }
    ensures area { area.new ≡ (serve_bytes device.old port area.old (disk_of disk.old check_area.old)).private_area }
    ensures disk { disk.new ≡ (serve_bytes device.old port area.old (disk_of disk.old check_area.old)).disk.sectors }
    ensures check_area { check_area.new ≡ (serve_bytes device.old port area.old (disk_of disk.old check_area.old)).disk.check_area }
{
    serve_checks(device, port, area.len(), disk.len(), check_area.len())?;
    let visible = visible_sectors(device);
    serve_request::serve(
        device,
        area,
        &mut disk[..SECTOR * visible],
        &mut check_area[..CHECK * visible],
        port as usize,
    );
    Ok(())
}

// "Give (port): writes all 528 reply bytes to the mailbox. Answered to empty; the slot's bytes stay.": 1,040 since W-202.
pub fn sct_give(
    device: &mut [u8],
    port: u32,
    mailbox: &mut [u8],
    area: &[u8],
) -> Result<(), Refusal>
    ensures value { answer_of result ≡ (give_bytes device.old port mailbox.old area.now).answer }
    ensures device { device.new ≡ (give_bytes device.old port mailbox.old area.now).record_area }
    ensures mailbox { mailbox.new ≡ (give_bytes device.old port mailbox.old area.now).mailbox }
{
    mailbox_checks(device, port, mailbox.len(), area.len(), Stage::Answered)?;
    let p = port as usize;
    runs::copy_part(mailbox, 0, area, MAILBOX * p, MAILBOX);
    record_write::put_stage(device, p, Stage::Empty);
    Ok(())
}
