// How a status read is served: the reply is written straight into the slot, and of the record only the slot's stage changes.
ghost use Rattle.std.specs.Prelude.{◌≡◌, true, List, ℕ, ◌+◌, ◌≤◌, ◌<◌, length};
ghost use Rattle.std.proofs.lemmas.List.Edits.{sets};
ghost use Rattle.model.specs.Sizes.{mailbox_size, port_count};
ghost use Rattle.store.specs.Areas.{private_size, slot_place};
ghost use Rattle.store.specs.Record.{answered, encode, decode};
ghost use Rattle.store.specs.Sound.{sound};
ghost use Rattle.store.specs.Entries.{with_stage};
ghost use Rattle.record.specs.DeviceMeaning.{as_device};
ghost use Rattle.status_read.specs.StatusReply.{status_reply};

use layout::{MAILBOX, sct};
use record::{Device, Stage};
use record_write::put_stage;
use reply::{good, put_reply, refused_with};
use reply_data::put_status;

// Writes the reply. "A refused status read under the lock answers 0012h and stores nothing."
fn put_status_reply(area: &mut [u8], at: usize, d: Device)
    requires { at + mailbox_size ≤ length area.old }
    ensures { (h : List ℕ) → area.new ≡ sets area.old at (status_reply (as_device d h)) }
{
    if d.locked {
        put_reply(area, at, refused_with(sct::LOCKED, 0));
        return;
    }
    put_status(area, at, good(0, 0), d);
}

// Serves the status read that slot p holds. "Held to answered."
pub fn serve_status(device: &mut [u8], area: &mut [u8], p: usize)
    requires { (sound device.old ≡ true) × (length area.old ≡ private_size) × (p < port_count) }
    ensures device { device.new ≡ encode (with_stage p answered (decode device.old)) }
    ensures area { area.new ≡ sets area.old (slot_place p) (status_reply (decode device.old).device) }
{
    let d = record::decode(device);
    put_status_reply(area, MAILBOX * p, d);
    put_stage(device, p, Stage::Answered);
}
