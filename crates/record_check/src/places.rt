// The tests on a record's bytes in place: spare bytes, flags, and the cases of the fill and the slots.
ghost use Rattle.std.specs.Prelude.{◌≡◌, ◌&&◌, ◌+◌, ◌<◌, ◌≤◌, length, leb};
ghost use Rattle.wire.specs.Numbers.{get};
ghost use Rattle.store.specs.Areas.{record_size};
ghost use Rattle.store.specs.RecordTests.{spare_runs, zero_runs, flags_named, fill_named, transfer_named, slot_named};

use layout::{field, port};
use wire::Number;

// The spare bytes of the four ports.
const PORT_0_SPARE_AT: usize = field::PORTS_AT + port::SPARE_AT;

const PORT_1_SPARE_AT: usize = PORT_0_SPARE_AT + port::SIZE;

const PORT_2_SPARE_AT: usize = PORT_1_SPARE_AT + port::SIZE;

const PORT_3_SPARE_AT: usize = PORT_2_SPARE_AT + port::SIZE;

// Whether the spare bytes are 0.
pub fn spare_zero(device: &[u8]) -> bool
    requires { length device.now ≡ record_size }
    ensures { result ≡ zero_runs spare_runs device.now }
{
    runs::is_zero(device, field::FILL_SPARE_AT, field::FILL_SPARE)
        & (runs::is_zero(device, field::KEPT_SPARE_AT, field::KEPT_SPARE)
            & (runs::is_zero(device, field::THERMAL_SPARE_AT, field::THERMAL_SPARE)
                & (runs::is_zero(device, PORT_0_SPARE_AT, port::SPARE)
                    & (runs::is_zero(device, PORT_1_SPARE_AT, port::SPARE)
                        & (runs::is_zero(device, PORT_2_SPARE_AT, port::SPARE)
                            & (runs::is_zero(device, PORT_3_SPARE_AT, port::SPARE)
                                & runs::is_zero(
                                    device,
                                    field::HEAD_SPARE_AT,
                                    field::HEAD_SPARE,
                                )))))))
}

// Whether the flag in the byte at `at` is 0 or 1.
fn flag_named(device: &[u8], at: usize) -> bool
    requires { at + 1 ≤ length device.now }
    ensures { result ≡ leb (get 1 device.now at) 1 }
{
    u8::get(device, at) <= 1
}

pub fn flags_named(device: &[u8]) -> bool
    requires { length device.now ≡ record_size }
    ensures { result ≡ flags_named device.now }
{
    flag_named(device, field::LOCKED_AT)
        & flag_named(device, field::INITIALIZED_AT)
        & flag_named(device, field::WRITE_CACHE_KEPT_AT)
        & (flag_named(device, field::REORDERING_KEPT_AT)
            & flag_named(device, field::LOG_INTERVAL_KEPT_AT))
}

// A fill runs or not; if not, its numbers are 0.
pub fn fill_named(device: &[u8]) -> bool
    requires { length device.now ≡ record_size }
    ensures { result ≡ fill_named device.now }
{
    let kind = u8::get(device, field::FILL_AT);
    let first = u64::get(device, field::FILL_FIRST_AT);
    let next = u64::get(device, field::FILL_NEXT_AT);
    let end = u64::get(device, field::FILL_END_AT);
    (kind == 1) | ((kind == 0) & (first == 0) & ((next == 0) & (end == 0)))
}

// A named kind of transfer; none and the table have no first sector, and only a fill has an end: their numbers are 0.
fn transfer_named(kind: u8, first: u64, end: u64) -> bool
    ensures { result ≡ transfer_named kind first end }
{
    (kind <= port::WRITE_LONG)
        & ((port::FILL_DATA <= kind) | (first == 0))
        & ((kind == port::FILL_DATA) | (end == 0))
}

// Slot i: a named stage, and its transfer.
fn slot_named(device: &[u8], i: usize) -> bool
    requires { (length device.now ≡ record_size) × (i < 4) }
    ensures { result ≡ slot_named device.now i }
{
    let at = field::PORTS_AT + port::SIZE * i;
    let stage = u8::get(device, at);
    let kind = u8::get(device, at + port::TRANSFER_AT);
    let first = u64::get(device, at + port::FIRST_AT);
    let end = u64::get(device, at + port::END_AT);
    (stage <= port::ANSWERED) & transfer_named(kind, first, end)
}

pub fn slots_named(device: &[u8]) -> bool
    requires { length device.now ≡ record_size }
    ensures { result ≡ (slot_named device.now 0 && slot_named device.now 1 && (slot_named device.now 2 && slot_named device.now 3)) }
{
    slot_named(device, 0) & slot_named(device, 1) & (slot_named(device, 2) & slot_named(device, 3))
}
