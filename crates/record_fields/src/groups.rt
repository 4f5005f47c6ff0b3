// How the fields of a record's first half are stored, group by group.
ghost use Rattle.std.specs.Prelude.{◌≡◌, [], ◌<◌, length};
ghost use Rattle.wire.specs.Layout.{stores, Fit};
ghost use Rattle.store.specs.Areas.{record_size};
ghost use Rattle.store.specs.Record.{size_fields, command_fields, settings_fields, thermal_fields, fill_fields, slot_at, slot_fields, slots_fields};
ghost use Rattle.record.specs.DeviceMeaning.{as_stage, as_transfer, as_fill, as_settings, as_thermal, stages_of, pending_of, as_command, as_device};

use crate::cases::{fill_end, fill_first, fill_kind, transfer_end, transfer_first, transfer_kind};
use layout::{PORTS, field, port};
use record::{Command, Device, Fill, Settings, Slot, Thermal, stage_number};
use wire::{Number, bit_of};

pub fn put_sizes(device: &mut [u8], d: Device)
    requires { length device.old ≡ record_size }
    ensures device_after { device.new ≡ stores (size_fields (as_device d [])) device.old }
    ensures fits { Fit (size_fields (as_device d [])) }
{
    d.native.put(device, field::NATIVE_AT);
    d.visible.put(device, field::VISIBLE_AT);
    bit_of(d.locked).put(device, field::LOCKED_AT);
    bit_of(d.initialized).put(device, field::INITIALIZED_AT);
}

pub fn put_command(device: &mut [u8], c: Command)
    requires { length device.old ≡ record_size }
    ensures device_after { device.new ≡ stores (command_fields (as_command c [])) device.old }
    ensures fits { Fit (command_fields (as_command c [])) }
{
    let fill = c.fill;
    fill_kind(fill).put(device, field::FILL_AT);
    c.code.put(device, field::CODE_AT);
    c.action.put(device, field::ACTION_AT);
    c.function.put(device, field::FUNCTION_AT);
}

pub fn put_settings(device: &mut [u8], s: Settings)
    requires { length device.old ≡ record_size }
    ensures device_after { device.new ≡ stores (settings_fields (as_settings s)) device.old }
    ensures fits { Fit (settings_fields (as_settings s)) }
{
    s.read_timer.put(device, field::READ_TIMER_AT);
    s.write_timer.put(device, field::WRITE_TIMER_AT);
    s.write_cache.state.put(device, field::WRITE_CACHE_AT);
    s.reordering.state.put(device, field::REORDERING_AT);
    bit_of(s.write_cache.persistent).put(device, field::WRITE_CACHE_KEPT_AT);
    bit_of(s.reordering.persistent).put(device, field::REORDERING_KEPT_AT);
    bit_of(s.log_interval.persistent).put(device, field::LOG_INTERVAL_KEPT_AT);
}

pub fn put_thermal(device: &mut [u8], t: Thermal)
    requires { length device.old ≡ record_size }
    ensures device_after { device.new ≡ stores (thermal_fields (as_thermal t [])) device.old }
    ensures fits { Fit (thermal_fields (as_thermal t [])) }
{
    t.minutes.put(device, field::MINUTES_AT);
    t.current.put(device, field::CURRENT_AT);
    t.cycle_maximum.put(device, field::CYCLE_MAXIMUM_AT);
    t.life_maximum.put(device, field::LIFE_MAXIMUM_AT);
}

pub fn put_fill(device: &mut [u8], f: Fill)
    requires { length device.old ≡ record_size }
    ensures device_after { device.new ≡ stores (fill_fields (as_fill f)) device.old }
    ensures fits { Fit (fill_fields (as_fill f)) }
{
    fill_first(f).put(device, field::FILL_FIRST_AT);
    record::next_sector(f).put(device, field::FILL_NEXT_AT);
    fill_end(f).put(device, field::FILL_END_AT);
}

fn put_slot(device: &mut [u8], i: usize, s: Slot)
    requires { (length device.old ≡ record_size) × (i < 4) }
    ensures device_after { device.new ≡ stores (slot_fields (slot_at i) (as_stage s.stage) (as_transfer s.pending)) device.old }
    ensures fits { Fit (slot_fields (slot_at i) (as_stage s.stage) (as_transfer s.pending)) }
{
    let at = field::PORTS_AT + port::SIZE * i;
    let stage = s.stage;
    let pending = s.pending;
    stage_number(stage).put(device, at);
    transfer_kind(pending).put(device, at + port::TRANSFER_AT);
    transfer_first(pending).put(device, at + port::FIRST_AT);
    transfer_end(pending).put(device, at + port::END_AT);
}

pub fn put_slots(device: &mut [u8], slots: [Slot; PORTS])
    requires { length device.old ≡ record_size }
    ensures device_after { device.new ≡ stores (slots_fields (stages_of slots) (pending_of slots)) device.old }
    ensures fits { Fit (slots_fields (stages_of slots) (pending_of slots)) }
    ensures four { length slots ≡ 4 }
{
    let a = slots[0];
    let b = slots[1];
    let c = slots[2];
    let d = slots[3];
    put_slot(device, 0, a);
    put_slot(device, 1, b);
    put_slot(device, 2, c);
    put_slot(device, 3, d);
}
