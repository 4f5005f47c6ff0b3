// The reply of a decision, left in its slot.
ghost use Rattle.std.specs.Prelude.{◌≡◌, ◌<◌, length};
ghost use Rattle.std.proofs.lemmas.List.Edits.{sets};
ghost use Rattle.wire.specs.Parts.{part};
ghost use Rattle.model.specs.Sizes.{sector_size, port_count};
ghost use Rattle.model.specs.Device.{Device};
ghost use Rattle.model.specs.Disk.{disk_of};
ghost use Rattle.model.specs.Perform.{temperature_table, sector_read, reply_with};
ghost use Rattle.store.specs.Areas.{record_size, head_size, private_size, slot_place};
ghost use Rattle.reply.specs.ReplyMeaning.{as_registers};
ghost use Rattle.decision.specs.DecisionMeaning.{as_sending};
ghost use Rattle.effect.specs.Effects.{SendsWithin};

use decision::Sending;
use layout::MAILBOX;
use reply::Reply;

// Leaves the reply in slot p. The device is one whose temperature table is the record's second half: the record was written before.
pub fn send(
    area: &mut [u8],
    device: &[u8],
    disk: &[u8],
    check_area: &[u8],
    p: usize,
    reply: Reply,
    sends: Sending,
)
    requires { (length area.old ≡ private_size) × (length device.now ≡ record_size) × (p < port_count) × SendsWithin (disk_of disk.now check_area.now) sends }
    ensures { (d : Device) → part device.now head_size sector_size ≡ temperature_table d → area.new ≡ sets area.old (slot_place p) (reply_with (as_registers reply) (as_sending sends) d (sector_read (as_sending sends) (disk_of disk.now check_area.now))) }
{
    let at = MAILBOX * p;
    match sends {
        Sending::Nothing => reply::put_reply(area, at, reply),
        Sending::Temperatures => reply_data::put_table(area, at, reply, device),
        Sending::Sector(lba) => reply_data::put_read(area, at, reply, disk, check_area, lba),
        Sending::StoredSector(lba) => reply_data::put_long(area, at, reply, disk, check_area, lba),
    }
}
