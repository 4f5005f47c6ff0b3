// The record with a slot answered: the history is emptied if asked for, then the device and the stage are written.
ghost use Rattle.std.specs.Prelude.{◌≡◌, ◌+◌, ◌<◌, length, if◌then◌else◌};
ghost use Rattle.std.proofs.lemmas.List.Edits.{sets};
ghost use Rattle.model.specs.Sizes.{port_count};
ghost use Rattle.model.specs.Temperature.{table_head_size, empty_history};
ghost use Rattle.store.specs.Areas.{head_size};
ghost use Rattle.store.specs.Record.{answered, encode};
ghost use Rattle.store.specs.Entries.{with_stage};
ghost use Rattle.record.specs.DeviceMeaning.{as_contents, history_of, history_after};
ghost use Rattle.record_write.specs.Framed.{Framed};

use record::{Device, Stage};

// Empties the record's history, if asked for.
fn empty_if(device: &mut [u8], asked: bool)
    requires { Framed device.old }
    ensures { device.new ≡ (if asked then sets device.old (head_size + table_head_size) empty_history else device.old) }
{
    if !asked {
        return;
    }
    record_write::empty_history(device);
}

// Writes the device with slot p answered.
pub fn finish(device: &mut [u8], p: usize, d: Device, empties: bool)
    requires { Framed device.old × (p < port_count) × (length d.slots ≡ port_count) }
    ensures { device.new ≡ encode (with_stage p answered (as_contents d (history_after empties (history_of device.old)))) }
{
    empty_if(device, empties);
    record_write::write(device, d);
    record_write::put_stage(device, p, Stage::Answered);
}
