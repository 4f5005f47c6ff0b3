// What the record's bytes decode to, as a struct: they are read group by group.
ghost use Rattle.std.specs.Prelude.{◌≡◌, ◌+◌, ◌<◌, ◌≤◌, length};
ghost use Rattle.wire.specs.Numbers.{get};
ghost use Rattle.store.specs.Areas.{record_size};
ghost use Rattle.store.specs.Record.{stage_number, stage_of, fill_of, transfer_of, flag_of, stage_at, transfer_at, decode};
ghost use Rattle.record.specs.DeviceMeaning.{as_stage, as_transfer, as_fill, as_settings, as_thermal, as_contents, history_of};

use crate::device::{Command, Device, Feature, Fill, Settings, Slot, Stage, Thermal, Transfer};
use layout::{field, port, table};
use wire::Number;

// ---- numbers as cases

fn stage_of(n: u8) -> Stage
    ensures { as_stage result ≡ stage_of n }
{
    if n == port::HELD {
        return Stage::Held;
    }
    if n == port::ANSWERED {
        return Stage::Answered;
    }
    Stage::Empty
}

// The number of a stage.
pub fn stage_number(s: Stage) -> u8
    ensures { result ≡ stage_number (as_stage s) }
{
    match s {
        Stage::Empty => port::EMPTY,
        Stage::Held => port::HELD,
        Stage::Answered => port::ANSWERED,
    }
}

fn transfer_of(kind: u8, first: u64, end: u64) -> Transfer
    ensures { as_transfer result ≡ transfer_of kind first end }
{
    if kind == port::TABLE {
        return Transfer::Table;
    }
    if kind == port::FILL_DATA {
        return Transfer::FillData(first, end);
    }
    if kind == port::READ_LONG {
        return Transfer::ReadLong(first);
    }
    if kind == port::WRITE_LONG {
        return Transfer::WriteLong(first);
    }
    Transfer::None
}

fn fill_of(kind: u8, first: u64, next: u64, end: u64) -> Fill
    ensures { as_fill result ≡ fill_of kind first next end }
{
    if kind == 1 {
        return Fill::Running(first, next, end);
    }
    Fill::Idle
}

// ---- groups of fields

// The flag in the byte at `at`.
fn flag_at(device: &[u8], at: usize) -> bool
    requires { at + 1 ≤ length device.now }
    ensures { result ≡ flag_of (get 1 device.now at) }
{
    u8::get(device, at) == 1
}

// The fill: its kind is in byte 18, its three numbers are from byte 48 on.
pub fn fill_at(device: &[u8]) -> Fill
    requires { length device.now ≡ record_size }
    ensures { as_fill result ≡ (decode device.now).device.command.fill }
{
    fill_of(
        u8::get(device, field::FILL_AT),
        u64::get(device, field::FILL_FIRST_AT),
        u64::get(device, field::FILL_NEXT_AT),
        u64::get(device, field::FILL_END_AT),
    )
}

// The stored code.
pub fn code_at(device: &[u8]) -> u16
    requires { length device.now ≡ record_size }
    ensures { result ≡ (decode device.now).device.command.code }
{
    u16::get(device, field::CODE_AT)
}

// The last command. What the ports have pending is in their slots.
fn command_at(device: &[u8]) -> Command
    requires { length device.now ≡ record_size }
    ensures code { result.code ≡ (decode device.now).device.command.code }
    ensures action { result.action ≡ (decode device.now).device.command.action }
    ensures function { result.function ≡ (decode device.now).device.command.function }
    ensures fill { as_fill result.fill ≡ (decode device.now).device.command.fill }
{
    let code = code_at(device);
    let action = u16::get(device, field::ACTION_AT);
    let function = u16::get(device, field::FUNCTION_AT);
    let fill = fill_at(device);
    Command {
        code,
        action,
        function,
        fill,
    }
}

// The settings. The interval's state is in the temperature table.
pub fn settings_at(device: &[u8]) -> Settings
    requires { length device.now ≡ record_size }
    ensures { as_settings result ≡ (decode device.now).device.settings }
{
    let write_cache = Feature {
        state: u16::get(device, field::WRITE_CACHE_AT),
        persistent: flag_at(device, field::WRITE_CACHE_KEPT_AT),
    };
    let reordering = Feature {
        state: u16::get(device, field::REORDERING_AT),
        persistent: flag_at(device, field::REORDERING_KEPT_AT),
    };
    let log_interval = Feature {
        state: u16::get(device, table::RECORD_INTERVAL_AT),
        persistent: flag_at(device, field::LOG_INTERVAL_KEPT_AT),
    };
    Settings {
        read_timer: u16::get(device, field::READ_TIMER_AT),
        write_timer: u16::get(device, field::WRITE_TIMER_AT),
        write_cache,
        reordering,
        log_interval,
    }
}

// The temperatures. The newest reading's index is in the temperature table.
fn thermal_at(device: &[u8]) -> Thermal
    requires { length device.now ≡ record_size }
    ensures { as_thermal result (history_of device.now) ≡ (decode device.now).device.thermal }
{
    Thermal {
        current: u8::get(device, field::CURRENT_AT),
        cycle_maximum: u8::get(device, field::CYCLE_MAXIMUM_AT),
        life_maximum: u8::get(device, field::LIFE_MAXIMUM_AT),
        index: u16::get(device, table::RECORD_INDEX_AT),
        minutes: u16::get(device, field::MINUTES_AT),
    }
}

// The stage of slot i.
pub fn stage_at(device: &[u8], i: usize) -> Stage
    requires { (length device.now ≡ record_size) × (i < 4) }
    ensures { as_stage result ≡ stage_at device.now i }
{
    stage_of(u8::get(device, field::PORTS_AT + port::SIZE * i))
}

// The transfer that port i has pending.
pub fn transfer_at(device: &[u8], i: usize) -> Transfer
    requires { (length device.now ≡ record_size) × (i < 4) }
    ensures { as_transfer result ≡ transfer_at device.now i }
{
    let at = field::PORTS_AT + port::SIZE * i;
    transfer_of(
        u8::get(device, at + port::TRANSFER_AT),
        u64::get(device, at + port::FIRST_AT),
        u64::get(device, at + port::END_AT),
    )
}

// Slot i.
fn slot_at(device: &[u8], i: usize) -> Slot
    requires { (length device.now ≡ record_size) × (i < 4) }
    ensures stage { as_stage result.stage ≡ stage_at device.now i }
    ensures pending { as_transfer result.pending ≡ transfer_at device.now i }
{
    let stage = stage_at(device, i);
    let pending = transfer_at(device, i);
    Slot { stage, pending }
}

// N, the disk's size in sectors.
pub fn native_at(device: &[u8]) -> u64
    requires { length device.now ≡ record_size }
    ensures { result ≡ (decode device.now).device.native }
{
    u64::get(device, field::NATIVE_AT)
}

// V, the visible size in sectors.
pub fn visible_at(device: &[u8]) -> u64
    requires { length device.now ≡ record_size }
    ensures { result ≡ (decode device.now).device.visible }
{
    u64::get(device, field::VISIBLE_AT)
}

// The device that the record's bytes decode to.
pub fn decode(device: &[u8]) -> Device
    requires { length device.now ≡ record_size }
    ensures { as_contents result (history_of device.now) ≡ decode device.now }
{
    let native = native_at(device);
    let visible = visible_at(device);
    let locked = flag_at(device, field::LOCKED_AT);
    let initialized = flag_at(device, field::INITIALIZED_AT);
    let command = command_at(device);
    let settings = settings_at(device);
    let thermal = thermal_at(device);
    let s0 = slot_at(device, 0);
    let s1 = slot_at(device, 1);
    let s2 = slot_at(device, 2);
    let s3 = slot_at(device, 3);
    Device {
        native,
        visible,
        locked,
        initialized,
        command,
        settings,
        thermal,
        slots: [s0, s1, s2, s3],
    }
}
