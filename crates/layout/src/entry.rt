// The places of an entry of the saved image, in its body and in its trailer. The definitions are in crates/model/specs/Image.
use crate::table;

// "Body: N at 0 and V at 8 (8 bytes each), flag 16, life maximum 17, features 1 to 3 at 18, 20, 22, kept marks in bits 0 to 2 of byte 24,
// zeros to 31, then the temperature table."
pub const NATIVE_AT: usize = 0;

pub const VISIBLE_AT: usize = 8;

pub const FLAG_AT: usize = 16;

pub const LIFE_AT: usize = 17;

pub const CACHE_AT: usize = 18;

pub const REORDERING_AT: usize = 20;

pub const INTERVAL_AT: usize = 22;

pub const OPTIONS_AT: usize = 24;

pub const WRITE_CACHE_OPTION: u8 = 1;

pub const REORDERING_OPTION: u8 = 2;

pub const LOG_INTERVAL_OPTION: u8 = 4;

pub const OPTIONS_LIMIT: u8 = WRITE_CACHE_OPTION + REORDERING_OPTION + LOG_INTERVAL_OPTION;

// W-204: "byte 25 is 2 and bytes 26 to 29 hold the read and write timers"; "Form 1 has byte 25 = 0"
pub const FORM_AT: usize = 25;

pub const WITHOUT_TIMERS: u8 = 0;

pub const WITH_TIMERS: u8 = 2;

pub const READ_TIMER_AT: usize = 26;

pub const WRITE_TIMER_AT: usize = 28;

pub const ZEROS_AT: usize = 30;

// The forms by their numbers: form 1 leaves the timers out.
pub const FORM_1: u32 = 1;

pub const FORM_2: u32 = 2;

pub const TABLE_AT: usize = 32;

pub const ZEROS: usize = TABLE_AT - ZEROS_AT;

// .. and in that table the interval, the index and the history
pub const TABLE_INTERVAL_AT: usize = TABLE_AT + table::INTERVAL_AT;

pub const INDEX_AT: usize = TABLE_AT + table::INDEX_AT;

pub const HISTORY_AT: usize = TABLE_AT + table::HISTORY_AT;

// "Trailer: 544, the place of the previous trailer (FFFFFFFFh for the first), the entry number from 1 (4 bytes each), then the letters SCTE."
pub const LINK_AT: usize = 4;

pub const NUMBER_AT: usize = 8;

pub const TAG_AT: usize = 12;

pub const TAG: usize = 4;

pub const NO_TRAILER: u32 = 0xFFFFFFFF;
