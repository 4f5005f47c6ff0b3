// What power-on restores: the device of the newest entry, or that of an empty image.
ghost use Rattle.std.specs.Prelude.{◌≡◌, ◌+◌, ◌%◌, ◌≤◌, length, replicate, eqb, if◌then◌else◌};
ghost use Rattle.std.proofs.lemmas.List.Edits.{sets};
ghost use Rattle.wire.specs.Numbers.{get};
ghost use Rattle.model.specs.Sizes.{port_count, entry_size};
ghost use Rattle.model.specs.Temperature.{table_head_size, empty_history, empty_index};
ghost use Rattle.model.specs.Image.{Saved, has_bit, options_place, saved_at, blank, power_on_settings, power_on_thermal, power_on, restored};
ghost use Rattle.store.specs.Areas.{head_size, record_size};
ghost use Rattle.store.specs.Record.{empty, encode};
ghost use Rattle.store.specs.Entries.{restored_contents};
ghost use Rattle.record.specs.DeviceMeaning.{as_settings, as_device, stages_of};

use entry_timers::{Timers, timers_at, timers_meant};
use layout::{EMPTY_INDEX, ENTRY, HISTORY, MISSING, entry, sct, table};
use record::{Command, Device, Feature, Fill, Settings, Slot, Stage, Thermal, Transfer};
use wire::Number;

// Whether the bit of a weight (1, 2, 4 ..) is 1 in a byte.
fn has_bit(weight: u8, byte: u8) -> bool
    requires { 1 ≤ weight }
    ensures { result ≡ has_bit weight byte }
{
    byte / weight % 2 == 1
}

// A feature of an entry, whose state is at `at`, and whose mark is this option.
fn saved_feature(entry: &[u8; ENTRY], at: usize, option: u8) -> Feature
    requires { (at + 2 ≤ entry_size) × (1 ≤ option) }
    ensures state { result.state ≡ get 2 entry.now at }
    ensures persistent { result.persistent ≡ has_bit option (get 1 entry.now options_place) }
{
    Feature {
        state: u16::get(entry, at),
        persistent: has_bit(option, u8::get(entry, entry::OPTIONS_AT)),
    }
}

// The settings of an entry, as power-on keeps them; W-204: ".. the read and write timers, which power-on then restores".
#[tactic(auto, unfolding(model::specs::Image::saved_at))]
fn saved_settings(entry: &[u8; ENTRY]) -> Settings
    ensures { as_settings result ≡ power_on_settings (saved_at entry.now 0) }
{
    let Timers { read, write } = timers_meant(timers_at(entry));
    let write_cache = saved_feature(entry, entry::CACHE_AT, entry::WRITE_CACHE_OPTION);
    let reordering = saved_feature(entry, entry::REORDERING_AT, entry::REORDERING_OPTION);
    let log_interval = saved_feature(entry, entry::INTERVAL_AT, entry::LOG_INTERVAL_OPTION);
    Settings::power_on(read, write, write_cache, reordering, log_interval)
}

// A device at power-on: "Unlocked, no fill, nothing owed, .. code, action and function 0".
fn powered(
    native: u64,
    visible: u64,
    initialized: bool,
    life: u8,
    settings: Settings,
    index: u16,
) -> Device
    ensures s_value { (s : Saved) → native ≡ s.native → visible ≡ s.visible → initialized ≡ s.initialized → life ≡ s.life_maximum → as_settings settings ≡ power_on_settings s → index ≡ (power_on_thermal s).index → as_device result (power_on_thermal s).history ≡ power_on s }
    ensures stages { stages_of result.slots ≡ replicate port_count empty }
{
    let free = Slot {
        stage: Stage::Empty,
        pending: Transfer::None,
    };
    Device {
        native,
        visible,
        locked: false,
        initialized,
        command: Command {
            code: sct::COMPLETE,
            action: 0,
            function: 0,
            fill: Fill::Idle,
        },
        settings,
        thermal: Thermal {
            current: MISSING,
            cycle_maximum: MISSING,
            life_maximum: life,
            index,
            minutes: 0,
        },
        slots: [free, free, free, free],
    }
}

// "Power-on from length 0 gives V = N, no flag, missing temperatures, defaults, empty history"
fn blank_device(native: u64) -> Device
    ensures empty_history_value { as_device result empty_history ≡ power_on (blank native) }
    ensures stages { stages_of result.slots ≡ replicate port_count empty }
{
    let settings = Settings::defaults();
    powered(native, native, false, MISSING, settings, EMPTY_INDEX)
}

// "The history is kept if the interval after power-on equals the saved one": the index that is kept.
#[tactic(auto, unfolding(model::specs::Image::saved_at))]
fn kept_index(entry: &[u8; ENTRY], interval: u16) -> u16
    ensures { result ≡ (if eqb interval (saved_at entry.now 0).log_interval.state then (saved_at entry.now 0).index else empty_index) }
{
    if interval == u16::get(entry, entry::INTERVAL_AT) {
        u16::get(entry, entry::INDEX_AT)
    } else {
        EMPTY_INDEX
    }
}

// The device of an entry.
fn saved_device(entry: &[u8; ENTRY]) -> Device
    ensures at_value { as_device result (power_on_thermal (saved_at entry.now 0)).history ≡ power_on (saved_at entry.now 0) }
    ensures stages { stages_of result.slots ≡ replicate port_count empty }
{
    let native = u64::get(entry, entry::NATIVE_AT);
    let visible = u64::get(entry, entry::VISIBLE_AT);
    let initialized = u8::get(entry, entry::FLAG_AT) == 1;
    let life = u8::get(entry, entry::LIFE_AT);
    let settings = saved_settings(entry);
    let interval = settings.log_interval.state;
    let index = kept_index(entry, interval);
    powered(native, visible, initialized, life, settings, index)
}

// Copies the history of an entry into the record, if the interval is still the entry's.
fn put_history(device: &mut [u8], entry: &[u8; ENTRY], interval: u16)
    requires { length device.old ≡ record_size }
    ensures { device.new ≡ (if eqb interval (saved_at entry.now 0).log_interval.state then sets device.old (head_size + table_head_size) (saved_at entry.now 0).history else device.old) }
{
    if interval == u16::get(entry, entry::INTERVAL_AT) {
        runs::copy_part(
            device,
            table::RECORD_HISTORY_AT,
            entry,
            entry::HISTORY_AT,
            HISTORY,
        );
    }
}

// The record of an empty image's device.
fn restore_blank(device: &mut [u8], native: u64)
    requires { length device.old ≡ record_size }
    ensures { device.new ≡ encode (restored_contents (blank native)) }
{
    let d = blank_device(native);
    record_write::frame(device);
    record_write::write(device, d);
}

// The record of the device of an entry.
fn restore_entry(device: &mut [u8], entry: &[u8; ENTRY])
    requires { length device.old ≡ record_size }
    ensures { device.new ≡ encode (restored_contents (saved_at entry.now 0)) }
{
    let d = saved_device(entry);
    let interval = d.settings.log_interval.state;
    record_write::frame(device);
    put_history(device, entry, interval);
    record_write::write(device, d);
}

// The record after a power-on from this chain of entries, on a disk of `native` sectors.
pub fn put_restored(device: &mut [u8], native: u64, chain: &[u8])
    requires device_len { length device.old ≡ record_size }
    requires whole { length chain.now % entry_size ≡ 0 }
    ensures { device.new ≡ encode (restored_contents (restored native chain.now (length chain.now))) }
{
    match chain.last_chunk::<ENTRY>() {
        None => restore_blank(device, native),
        Some(newest) => restore_entry(device, newest),
    }
}
