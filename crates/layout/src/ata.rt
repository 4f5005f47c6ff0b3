// The registers at the start of a mailbox or slot, and the commands and values that document 01 names for them.

// "Bytes: 0/1 Features current/previous, 2/3 Sector Count, 4/5 LBA Low, 6/7 LBA Mid, 8/9 LBA High, 10 Device, 11 Command, 12 Status, 13 Error"
pub const COUNT_AT: usize = 2;

pub const LBA_LOW_AT: usize = 4;

pub const LBA_LOW_PREVIOUS_AT: usize = 5;

pub const LBA_MID_AT: usize = 6;

pub const LBA_MID_PREVIOUS_AT: usize = 7;

pub const LBA_HIGH_AT: usize = 8;

pub const LBA_HIGH_PREVIOUS_AT: usize = 9;

pub const COMMAND_AT: usize = 11;

pub const STATUS_AT: usize = 12;

pub const ERROR_AT: usize = 13;

// "B0h, Features D5h (read log) or D6h (write log), LBA Mid 4Fh, High C2h"
pub const SMART: u8 = 0xB0;

pub const SMART_READ_LOG: u8 = 0xD5;

pub const SMART_WRITE_LOG: u8 = 0xD6;

pub const SMART_LBA_MID: u8 = 0x4F;

pub const SMART_LBA_HIGH: u8 = 0xC2;

// "or 2Fh (read) or 3Fh (write) with both LBA Mid bytes 0"; "24h and 34h: read or write one sector"
pub const READ_LOG_EXT: u8 = 0x2F;

pub const WRITE_LOG_EXT: u8 = 0x3F;

pub const READ_SECTORS_EXT: u8 = 0x24;

pub const WRITE_SECTORS_EXT: u8 = 0x34;

// "Write E0h: key sector. Read E0h: status. E1h: data."
pub const SCT_STATUS_LOG: u8 = 0xE0;

pub const SCT_DATA_LOG: u8 = 0xE1;

// "Good: Status 50h, Error 0. Refused: Status 51h"; the errors 04h (command aborted), 10h (ID not found: no such sector)
// and 40h (uncorrectable data: the sector's check differs)
pub const STATUS_GOOD: u8 = 0x50;

pub const STATUS_REFUSED: u8 = 0x51;

pub const NO_ERROR: u8 = 0;

pub const ERROR_ABORTED: u8 = 0x04;

pub const ERROR_NOT_FOUND: u8 = 0x10;

pub const ERROR_UNCORRECTABLE: u8 = 0x40;
