// The status sector: its places and its fixed numbers. The definitions are in crates/model/specs/Status.

// "format 0002h; version 0001h at 2; spec 0001h at 4; flag bit 0 at 6; state at 10 (0, or 5 with a fill)"
pub const FORMAT: u16 = 0x0002;

pub const VERSION_AT: usize = 2;

pub const VERSION: u16 = 0x0001;

pub const SPEC_AT: usize = 4;

pub const SPEC: u16 = 0x0001;

pub const FLAGS_AT: usize = 6;

pub const STATE_AT: usize = 10;

pub const STATE_IN_BACKGROUND: u8 = 5;

// "code 14; action 16; function 18; LBA 40-47 the next sector"
pub const CODE_AT: usize = 14;

pub const ACTION_AT: usize = 16;

pub const FUNCTION_AT: usize = 18;

pub const LBA_AT: usize = 40;

// "temperatures at 200 (now), 202 (this power cycle), 204 (life)"
pub const CURRENT_AT: usize = 200;

pub const CYCLE_MAXIMUM_AT: usize = 202;

pub const LIFE_MAXIMUM_AT: usize = 204;
