// The key sector: its places and words, the actions, functions and selections that it names, and the extended status codes.

// "Words 0 and 1 are action and function"; "LBA in words 2 to 5" (W-202); "Start bytes 4-11, Count 12-19"; "bytes 20-23 repeated 128 times". Actions 3
// to 5 have words instead: what is selected (word 2), a value (word 3), an option (word 4).
pub const FUNCTION_AT: usize = 2;

pub const LBA_AT: usize = 4;

pub const START_AT: usize = 4;

pub const COUNT_AT: usize = 12;

pub const PATTERN_AT: usize = 20;

pub const PATTERN_REPEATS: usize = 128;

pub const SELECTION_AT: usize = 4;

pub const VALUE_AT: usize = 6;

pub const OPTION_AT: usize = 8;

// W-206: the word that a refusal names: "0 action, 1 function, 2 to 4 those words, 2 for Start or a Long LBA, 6 where the sum alone is at
// fault, 255 for the lock". Word 6 is the first of Count.
pub const ACTION_WORD: u8 = 0;

pub const FUNCTION_WORD: u8 = 1;

pub const LBA_WORD: u8 = 2;

pub const START_WORD: u8 = 2;

pub const COUNT_WORD: u8 = 6;

pub const SELECTION_WORD: u8 = 2;

pub const VALUE_WORD: u8 = 3;

pub const OPTION_WORD: u8 = 4;

pub const LOCK_WORD: u8 = 255;

// W-202: "action 0001h"; "2 fill", "3 timers", "4 feature", "5 table"
pub const ACTION_LONG: u16 = 1;

pub const ACTION_FILL: u16 = 2;

pub const ACTION_TIMER: u16 = 3;

pub const ACTION_FEATURE: u16 = 4;

pub const ACTION_TABLE: u16 = 5;

// Long Sector Access, function: "1 (read) and 2 (write)". Timers, word 2: "1 read or 2 write".
pub const READ: u16 = 1;

pub const WRITE: u16 = 2;

// Fill: "1 pattern, 2 sector". Timers: "1 set, 2 return". Feature: "1 set, 2 state, 3 options". Table: "1".
pub const FILL_PATTERN: u16 = 1;

pub const FILL_SECTOR: u16 = 2;

pub const TIMER_SET: u16 = 1;

pub const TIMER_RETURN: u16 = 2;

pub const FEATURE_SET: u16 = 1;

pub const FEATURE_STATE: u16 = 2;

pub const FEATURE_OPTIONS: u16 = 3;

pub const TABLE_READ: u16 = 1;

// "1 (write cache) ..; 2 (reordering) ..; 3 (log interval)"; "word 2 is 2"
pub const WRITE_CACHE: u16 = 1;

pub const REORDERING: u16 = 2;

pub const LOG_INTERVAL: u16 = 3;

pub const HISTORY_TABLE: u16 = 2;

// "each timer is 0 or at least 10"; "1 to 9 gives 0006h (read) or 0007h (write)"
pub const TIMER_MINIMUM: u16 = 10;

pub const TIMER_TOO_SHORT: u16 = TIMER_MINIMUM - 1;

// "Feature states: 1 (write cache) 1 to 3; 2 (reordering) 1 or 2; 3 (log interval) 1 to 65,535 minutes."
pub const WRITE_CACHE_LIMIT: u16 = 3;

pub const REORDERING_LIMIT: u16 = 2;

pub const LOG_INTERVAL_LIMIT: u16 = 65535;

// Extended status codes, named after Table 6 of document 001.
pub const COMPLETE: u16 = 0x0000;

pub const INVALID_FUNCTION: u16 = 0x0001;

pub const LBA_OUT_OF_RANGE: u16 = 0x0002;

pub const COUNT_OVERFLOW: u16 = 0x0003;

pub const INVALID_TIMER_FUNCTION: u16 = 0x0004;

pub const INVALID_TIMER_SELECTION: u16 = 0x0005;

pub const READ_TIMER_BELOW_MINIMUM: u16 = 0x0006;

pub const WRITE_TIMER_BELOW_MINIMUM: u16 = 0x0007;

pub const INTERRUPTED: u16 = 0x0008;

pub const INVALID_LONG_FUNCTION: u16 = 0x000A;

pub const NO_TRANSFER: u16 = 0x000B;

pub const INVALID_FEATURE_FUNCTION: u16 = 0x000C;

pub const INVALID_FEATURE: u16 = 0x000D;

pub const INVALID_STATE: u16 = 0x000E;

pub const INVALID_OPTION: u16 = 0x000F;

pub const INVALID_ACTION: u16 = 0x0010;

pub const INVALID_TABLE: u16 = 0x0011;

pub const LOCKED: u16 = 0x0012;

pub const IN_BACKGROUND: u16 = 0xFFFF;
