// How the device is written into a record: every field of the first half, and the two numbers of the table that change.
ghost use Rattle.std.specs.Prelude.{◌≡◌, ◌<◌, length};
ghost use Rattle.wire.specs.Numbers.{put};
ghost use Rattle.wire.specs.Layout.{stores};
ghost use Rattle.store.specs.Areas.{record_size};
ghost use Rattle.store.specs.Record.{stage_number, slot_at, table_numbers, encode};
ghost use Rattle.record.specs.DeviceMeaning.{as_stage, as_contents, history_of};
ghost use Rattle.record_write.specs.Framed.{Framed};
ghost use Rattle.record_write.specs.Fits.{NumbersFit};

use layout::{field, port, table};
use record::{Device, Stage, stage_number};
use record_fields::{put_command, put_fill, put_settings, put_sizes, put_slots, put_thermal};
use wire::Number;

// Writes the interval and the newest reading's index, which are in the temperature table.
fn put_table(device: &mut [u8], interval: u16, index: u16)
    requires { length device.old ≡ record_size }
    ensures { device.new ≡ stores (table_numbers interval index) device.old }
{
    interval.put(device, table::RECORD_INTERVAL_AT);
    index.put(device, table::RECORD_INDEX_AT);
}

// Writes the stage of slot p, and nothing else.
pub fn put_stage(device: &mut [u8], p: usize, stage: Stage)
    requires { (length device.old ≡ record_size) × (p < 4) }
    ensures { device.new ≡ put 1 device.old (slot_at p) (stage_number (as_stage stage)) }
{
    stage_number(stage).put(device, field::PORTS_AT + port::SIZE * p);
}

// Writes the device into a record; the history is unchanged.
pub fn write(device: &mut [u8], d: Device)
    requires { Framed device.old }
    ensures device_after { device.new ≡ encode (as_contents d (history_of device.old)) }
    ensures fits { NumbersFit d }
{
    let command = d.command;
    let settings = d.settings;
    let thermal = d.thermal;
    let fill = command.fill;
    let slots = d.slots;
    let interval = d.settings.log_interval.state;
    let index = d.thermal.index;
    put_sizes(device, d);
    put_command(device, command);
    put_settings(device, settings);
    put_thermal(device, thermal);
    put_fill(device, fill);
    put_slots(device, slots);
    put_table(device, interval, index);
}
