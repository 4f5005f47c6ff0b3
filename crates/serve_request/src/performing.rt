// How a decision is performed: first what it writes, then the record, then the reply.
ghost use Rattle.model.specs.Disk.{disk_of};
ghost use Rattle.store.specs.Store.{slot_bytes};
ghost use Rattle.record.specs.DeviceMeaning.{stages_of, history_of};
ghost use Rattle.decision.specs.DecisionMeaning.{as_decision};
ghost use Rattle.serve_request.specs.Served.{Served, Performable};

use decision::Decision;
use effect::{device_after, finish, send, write};

// "Held to answered."
pub fn perform(
    device: &mut [u8],
    area: &mut [u8],
    disk: &mut [u8],
    check_area: &mut [u8],
    p: usize,
    k: Decision,
)
    requires { Performable device.old area.old (disk_of disk.old check_area.old) p k }
    ensures { Served p (as_decision k (slot_bytes p area.old) (history_of device.old)) (stages_of k.device.slots) area.old (disk_of disk.old check_area.old) device.new area.new (disk_of disk.new check_area.new) }
{
    let writes = k.writes;
    let sends = k.sends;
    let reply = k.reply;
    let decided = k.device;
    write(area, disk, check_area, p, writes);
    let d = device_after(decided, writes);
    finish(device, p, d, k.empties);
    send(area, device, disk, check_area, p, reply, sends);
}
