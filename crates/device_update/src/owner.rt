// How lock, unlock, set V and repair change the device.
ghost use Rattle.std.specs.Prelude.{◌≡◌, length};
ghost use Rattle.model.specs.Sizes.{port_count};
ghost use Rattle.model.specs.Owner.{set_lock, set_visible};
ghost use Rattle.model.specs.Repair.{repaired_device};
ghost use Rattle.device_update.specs.Change.{Changed};

use crate::command::{interrupt, with_flag_cleared};
use record::Device;

// "Locking, unlocking and setting V do the same as other requests"
pub fn set_lock(d: Device, locked: bool) -> Device
    requires { length d.slots ≡ port_count }
    ensures { Changed (set_lock locked) d result }
{
    let mut e = interrupt(d);
    e.locked = locked;
    e
}

// "cleared .. by a changed V"
pub fn set_visible(d: Device, visible: u64) -> Device
    requires { length d.slots ≡ port_count }
    ensures { Changed (set_visible visible) d result }
{
    let mut e = interrupt(d);
    e.initialized = d.initialized & (visible == d.visible);
    e.visible = visible;
    e
}

// "The step first stops a fill and drops an owed transfer, as setting V does."; a flip "clears the flag".
pub fn repaired(d: Device, flips: bool) -> Device
    requires { length d.slots ≡ port_count }
    ensures { Changed (repaired_device flips) d result }
{
    let e = interrupt(d);
    if flips { with_flag_cleared(e) } else { e }
}
