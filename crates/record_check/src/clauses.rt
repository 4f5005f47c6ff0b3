// The clauses of document 01 on what a record decodes to: it is read part by part, and checked as numbers and small structs.
ghost use Rattle.std.specs.Prelude.{◌≡◌, ◌&&◌, [], ◌∷◌, ℕ, ◌≤◌, ◌<◌, length, leb};
ghost use Rattle.model.specs.Key.{timer_named, states_named};
ghost use Rattle.model.specs.Valid.{pending_count, pending_limit};
ghost use Rattle.store.specs.Areas.{record_size};
ghost use Rattle.store.specs.Record.{transfer_of, transfer_at, decode};
ghost use Rattle.store.specs.Sound.{fill_sound, transfer_sound, pending_sound, command_sound, settings_sound, device_sound};
ghost use Rattle.record.specs.DeviceMeaning.{as_fill, as_settings};

use layout::{HISTORY_U16, NATIVE_LIMIT, field, port, sct, table};
use record::{Fill, Settings};
use wire::Number;

// "if a fill runs, first ≤ next < end ≤ V"; "the stored code is FFFFh exactly while a fill runs"
fn fill_sound(visible: u64, code: u16, fill: Fill) -> bool
    ensures { result ≡ fill_sound visible code (as_fill fill) }
{
    match fill {
        Fill::Idle => code != sct::IN_BACKGROUND,
        Fill::Running(first, next, end) => {
            (code == sct::IN_BACKGROUND) & (first <= next) & (next < end) & (end <= visible)
        }
    }
}

// "an owed fill has first < end ≤ V"; W-202: "an owed Long transfer has its LBA below V". A transfer is checked by its numbers: with a case
// for each kind the built code would have a table of jumps, and more stack.
fn transfer_sound(visible: u64, kind: u8, first: u64, end: u64) -> bool
    ensures { result ≡ transfer_sound visible (transfer_of kind first end) }
{
    ((kind != port::FILL_DATA) | ((first < end) & (end <= visible)))
        & (((kind != port::READ_LONG) & (kind != port::WRITE_LONG)) | (first < visible))
}

// 1 for a transfer that is pending, else 0.
fn count_of(kind: u8) -> u8
    ensures by_index { (first end : ℕ) → result ≡ pending_count (transfer_of kind first end ∷ []) }
    ensures small { result ≤ 1 }
{
    wire::bit_of((port::TABLE <= kind) & (kind <= port::WRITE_LONG))
}

// What port i has pending.
fn port_sound(device: &[u8], i: usize, visible: u64) -> bool
    requires { (length device.now ≡ record_size) × (i < 4) }
    ensures { result ≡ transfer_sound visible (transfer_at device.now i) }
{
    let at = field::PORTS_AT + port::SIZE * i;
    transfer_sound(
        visible,
        u8::get(device, at + port::TRANSFER_AT),
        u64::get(device, at + port::FIRST_AT),
        u64::get(device, at + port::END_AT),
    )
}

// How many transfers port i has pending, 0 or 1.
fn port_count(device: &[u8], i: usize) -> u8
    requires { (length device.now ≡ record_size) × (i < 4) }
    ensures value { result ≡ pending_count (transfer_at device.now i ∷ []) }
    ensures small { result ≤ 1 }
{
    count_of(u8::get(device, field::PORTS_AT + port::SIZE * i + port::TRANSFER_AT))
}

// How many transfers may be pending with this fill.
fn limit_of(fill: Fill) -> u8
    ensures { result ≡ pending_limit (as_fill fill) }
{
    match fill {
        Fill::Idle => 1,
        Fill::Running(_, _, _) => 0,
    }
}

// "an owed fill has first < end ≤ V"; "a fill and an owed transfer never coexist", and at most one is pending: what the four ports have
// pending, with a fill that allows at most `limit`.
fn pending_sound(device: &[u8], visible: u64, limit: u8) -> bool
    requires { length device.now ≡ record_size }
    ensures { result ≡ (pending_sound visible (decode device.now).device.command.pending && leb (pending_count (decode device.now).device.command.pending) limit) }
{
    (port_sound(device, 0, visible)
        & (port_sound(device, 1, visible)
            & (port_sound(device, 2, visible) & port_sound(device, 3, visible))))
        & (port_count(device, 0)
            + port_count(device, 1)
            + port_count(device, 2)
            + port_count(device, 3)
            <= limit)
}

// The last command, with what the ports have pending.
fn command_sound(device: &[u8], visible: u64) -> bool
    requires { length device.now ≡ record_size }
    ensures { result ≡ command_sound visible (decode device.now).device.command }
{
    let fill = record::fill_at(device);
    fill_sound(visible, record::code_at(device), fill)
        & pending_sound(device, visible, limit_of(fill))
}

// "each timer is 0 or at least 10"
pub fn timer_named(n: u16) -> bool
    ensures { result ≡ timer_named n }
{
    (n == 0) | (sct::TIMER_MINIMUM <= n)
}

// "every .. feature state has one of its named values"
pub fn states_named(write_cache: u16, reordering: u16, log_interval: u16) -> bool
    ensures { result ≡ states_named write_cache reordering log_interval }
{
    ((1 <= write_cache) & (write_cache <= sct::WRITE_CACHE_LIMIT))
        & ((1 <= reordering) & (reordering <= sct::REORDERING_LIMIT))
        & ((1 <= log_interval) & (log_interval <= sct::LOG_INTERVAL_LIMIT))
}

// The timers and features.
fn settings_sound(s: Settings) -> bool
    ensures { result ≡ settings_sound (as_settings s) }
{
    timer_named(s.read_timer)
        & timer_named(s.write_timer)
        & states_named(
            s.write_cache.state,
            s.reordering.state,
            s.log_interval.state,
        )
}

// "1 ≤ V ≤ N ≤ 65,536"; W-207: "Sound records .. take the new limit"; "minutes counted are below it, the history index is at most 477". The history is not checked.
pub fn device_sound(device: &[u8]) -> bool
    requires { length device.now ≡ record_size }
    ensures { result ≡ device_sound (decode device.now).device }
{
    let native = record::native_at(device);
    let visible = record::visible_at(device);
    let settings = record::settings_at(device);
    let interval = settings.log_interval.state;
    ((1 <= visible) & (visible <= native) & (native <= NATIVE_LIMIT))
        & command_sound(device, visible)
        & settings_sound(settings)
        & ((u16::get(device, field::MINUTES_AT) < interval)
            & (u16::get(device, table::RECORD_INDEX_AT) < HISTORY_U16))
}
