// The places of the device record's fields (docs/record-layout.md). The definitions are in crates/store/specs/Record.
use crate::{PORTS, TABLE_AT, port};

pub const NATIVE_AT: usize = 0;

pub const VISIBLE_AT: usize = 8;

pub const LOCKED_AT: usize = 16;

pub const INITIALIZED_AT: usize = 17;

// The fill's case: 0 is no fill, 1 a running fill; its three numbers are at FILL_FIRST_AT, FILL_NEXT_AT and FILL_END_AT.
pub const FILL_AT: usize = 18;

pub const CODE_AT: usize = 20;

pub const ACTION_AT: usize = 22;

pub const FUNCTION_AT: usize = 24;

pub const READ_TIMER_AT: usize = 26;

pub const WRITE_TIMER_AT: usize = 28;

pub const WRITE_CACHE_AT: usize = 30;

pub const REORDERING_AT: usize = 32;

pub const WRITE_CACHE_KEPT_AT: usize = 34;

pub const REORDERING_KEPT_AT: usize = 35;

pub const LOG_INTERVAL_KEPT_AT: usize = 36;

pub const MINUTES_AT: usize = 38;

pub const CURRENT_AT: usize = 40;

pub const CYCLE_MAXIMUM_AT: usize = 41;

pub const LIFE_MAXIMUM_AT: usize = 42;

pub const FILL_FIRST_AT: usize = 48;

pub const FILL_NEXT_AT: usize = 56;

pub const FILL_END_AT: usize = 64;

pub const PORTS_AT: usize = 72;

// The spare bytes: after the fill's case, the marks, the temperatures and the ports, each up to the next field.
pub const FILL_SPARE_AT: usize = FILL_AT + 1;

pub const FILL_SPARE: usize = CODE_AT - FILL_SPARE_AT;

pub const KEPT_SPARE_AT: usize = LOG_INTERVAL_KEPT_AT + 1;

pub const KEPT_SPARE: usize = MINUTES_AT - KEPT_SPARE_AT;

pub const THERMAL_SPARE_AT: usize = LIFE_MAXIMUM_AT + 1;

pub const THERMAL_SPARE: usize = FILL_FIRST_AT - THERMAL_SPARE_AT;

pub const HEAD_SPARE_AT: usize = PORTS_AT + PORTS * port::SIZE;

pub const HEAD_SPARE: usize = TABLE_AT - HEAD_SPARE_AT;
