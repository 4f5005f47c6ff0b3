// The 24 bytes that the device record has for each port: the stage of its slot, and its pending transfer.

pub const SIZE: usize = 24;

pub const TRANSFER_AT: usize = 1;

pub const SPARE_AT: usize = 2;

pub const FIRST_AT: usize = 8;

pub const SPARE: usize = FIRST_AT - SPARE_AT;

pub const END_AT: usize = 16;

// Stages and transfers by number.
pub const EMPTY: u8 = 0;

pub const HELD: u8 = 1;

pub const ANSWERED: u8 = 2;

pub const NO_TRANSFER: u8 = 0;

pub const TABLE: u8 = 1;

pub const FILL_DATA: u8 = 2;

pub const READ_LONG: u8 = 3;

pub const WRITE_LONG: u8 = 4;
