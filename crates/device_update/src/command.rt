// How the last command changes: its code and words, its fill, and what is pending.
ghost use Rattle.std.specs.Prelude.{◌≡◌, false, ◌<◌, length, set, if◌then◌else◌};
ghost use Rattle.model.specs.Sizes.{port_count};
ghost use Rattle.model.specs.Device.{none};
ghost use Rattle.model.specs.Update.{with_code, with_key, with_initialized, with_pending};
ghost use Rattle.model.specs.Fill.{interrupt, start_fill, advanced};
ghost use Rattle.record.specs.DeviceMeaning.{as_stage, as_transfer, as_fill};
ghost use Rattle.device_update.specs.Change.{Changed, stopped_code};

use layout::sct;
use record::{Command, Device, Fill, Slot, Transfer};

// The slot with nothing pending.
fn cleared(s: Slot) -> Slot
    ensures { (as_stage result.stage ≡ as_stage s.stage) × (as_transfer result.pending ≡ none) }
{
    let stage = s.stage;
    Slot {
        stage,
        pending: Transfer::None,
    }
}

fn stopped_code(f: Fill, code: u16) -> u16
    ensures { result ≡ stopped_code (as_fill f) code }
{
    match f {
        Fill::Idle => code,
        Fill::Running(_, _, _) => sct::INTERRUPTED,
    }
}

// "first stops a running fill (code 0008h) and drops an owed transfer"
pub fn interrupt(d: Device) -> Device
    requires { length d.slots ≡ port_count }
    ensures { Changed interrupt d result }
{
    let c = d.command;
    let fill = c.fill;
    let code = stopped_code(fill, c.code);
    let slots = d.slots;
    let s0 = cleared(slots[0]);
    let s1 = cleared(slots[1]);
    let s2 = cleared(slots[2]);
    let s3 = cleared(slots[3]);
    let idle = Fill::Idle;
    let settings = d.settings;
    let thermal = d.thermal;
    Device {
        native: d.native,
        visible: d.visible,
        locked: d.locked,
        initialized: d.initialized,
        command: Command {
            code,
            action: c.action,
            function: c.function,
            fill: idle,
        },
        settings,
        thermal,
        slots: [s0, s1, s2, s3],
    }
}

// The device with a new stored code.
pub fn with_code(d: Device, code: u16) -> Device
    ensures { Changed (with_code code) d result }
{
    let mut e = d;
    let mut c = d.command;
    c.code = code;
    e.command = c;
    e
}

// "Words 0 and 1 are action and function; both are recorded from every key, accepted or not."
pub fn with_key(d: Device, action: u16, function: u16) -> Device
    ensures { Changed (with_key action function) d result }
{
    let mut e = d;
    let mut c = d.command;
    c.action = action;
    c.function = function;
    e.command = c;
    e
}

// "A running fill stores FFFFh"
pub fn start_fill(d: Device, first: u64, end: u64) -> Device
    ensures { Changed (start_fill first end) d result }
{
    let c = d.command;
    let started = Command {
        code: sct::IN_BACKGROUND,
        action: c.action,
        function: c.function,
        fill: Fill::Running(first, first, end),
    };
    let mut e = d;
    e.command = started;
    e
}

// The device after a sector of its fill; `next` is the sector after it: the flag "is cleared by any sector written"; "at end the fill is over".
pub fn sector_written(d: Device, first: u64, next: u64, end: u64) -> Device
    ensures { Changed (λ x. advanced first next end (with_initialized false x)) d result }
{
    let c = d.command;
    let mut e = d;
    if next == end {
        let over = Command {
            code: sct::COMPLETE,
            action: c.action,
            function: c.function,
            fill: Fill::Idle,
        };
        e.command = over;
        e.initialized = (first == 0) & (end == d.visible);
        return e;
    }
    let on = Command {
        code: sct::IN_BACKGROUND,
        action: c.action,
        function: c.function,
        fill: Fill::Running(first, next, end),
    };
    e.command = on;
    e.initialized = false;
    e
}

// "The Segment Initialized flag is cleared by any sector written"
pub fn with_flag_cleared(d: Device) -> Device
    ensures { Changed (with_initialized false) d result }
{
    let mut written = d;
    written.initialized = false;
    written
}

// The slot with a new pending transfer, if it is the one that is meant.
fn given(s: Slot, meant: bool, t: Transfer) -> Slot
    ensures { (as_stage result.stage ≡ as_stage s.stage) × (as_transfer result.pending ≡ (if meant then as_transfer t else as_transfer s.pending)) }
{
    if meant {
        let stage = s.stage;
        return Slot { stage, pending: t };
    }
    s
}

// The device with a transfer pending for port p. The slot is found by comparing: an array that a variable indexes is a copy on the stack.
pub fn with_pending(d: Device, p: usize, t: Transfer) -> Device
    requires { (p < port_count) × (length d.slots ≡ port_count) }
    ensures { Changed (λ x. with_pending (set x.command.pending p (as_transfer t)) x) d result }
{
    let slots = d.slots;
    let s0 = given(slots[0], p == 0, t);
    let s1 = given(slots[1], p == 1, t);
    let s2 = given(slots[2], p == 2, t);
    let s3 = given(slots[3], p == 3, t);
    let after = [s0, s1, s2, s3];
    let mut e = d;
    e.slots = after;
    e
}
