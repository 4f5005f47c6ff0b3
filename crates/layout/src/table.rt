// The places of the temperature table and its fixed numbers. The definitions are in crates/model/specs/Temperature.
use crate::TABLE_AT;

// "0002h; period 1; interval; bytes 6-9 = 3Ch, 46h, 05h, F6h; zeros; size 478 at 30; index at 32; history from 34": the bytes before
// the interval, and bytes 6-9, are a number of four bytes each.
pub const VERSIONS: u32 = 0x00010002;

pub const INTERVAL_AT: usize = 4;

pub const LIMITS_AT: usize = 6;

pub const LIMITS: u32 = 0xF605463C;

pub const ZEROS_AT: usize = 10;

pub const SIZE_AT: usize = 30;

pub const ZEROS: usize = SIZE_AT - ZEROS_AT;

pub const INDEX_AT: usize = 32;

pub const HISTORY_AT: usize = 34;

// .. and their places in the record
pub const RECORD_INTERVAL_AT: usize = TABLE_AT + INTERVAL_AT;

pub const RECORD_LIMITS_AT: usize = TABLE_AT + LIMITS_AT;

pub const RECORD_SIZE_AT: usize = TABLE_AT + SIZE_AT;

pub const RECORD_INDEX_AT: usize = TABLE_AT + INDEX_AT;

pub const RECORD_HISTORY_AT: usize = TABLE_AT + HISTORY_AT;
