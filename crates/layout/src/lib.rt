// The numbers of document 01 that the code uses: sizes here, in bytes unless stated otherwise; offsets, codes and answers in the modules.
// The definitions are in crates/model/specs and crates/store/specs; that code and definitions agree is proved where the numbers are used.
#![tactic(auto)]

pub mod answer;
pub mod ata;
pub mod entry;
pub mod field;
pub mod port;
pub mod sct;
pub mod status;
pub mod table;

// "Disk: a lent run of 1 to 65,536 sectors of 512 bytes"; W-207: "Raise the native limit to 16,777,216 sectors." Sector numbers are u64.
pub const SECTOR: usize = 512;

pub const SECTOR_U64: u64 = SECTOR as u64;

pub const NATIVE_LIMIT: u64 = 16777216;

// W-202: "a lent check area, two bytes a sector"
pub const CHECK: usize = 2;

pub const CHECK_U64: u64 = CHECK as u64;

// "A mailbox is 528 bytes: 16 of registers, then a 512-byte sector."; W-202: "A long transfer is two sectors, so mailboxes and slots grow to
// 1,040 bytes". A slot has the same layout.
pub const REGISTERS: usize = 16;

pub const LONG_SECTORS: usize = 2;

pub const LONG_SECTORS_U16: u16 = LONG_SECTORS as u16;

pub const DATA: usize = LONG_SECTORS * SECTOR;

pub const MAILBOX: usize = REGISTERS + DATA;

// "Private area, 2,624 bytes: four slots of 528, then the fill sector.": 4,672 bytes since W-202, with slots of 1,040.
pub const PORTS: usize = 4;

pub const PORTS_U32: u32 = PORTS as u32;

pub const FILL_AT: usize = PORTS * MAILBOX;

pub const PRIVATE: usize = FILL_AT + SECTOR;

// The device record, and the temperature table in its second half (its places: table.rt).
pub const RECORD: usize = 1024;

pub const TABLE_AT: usize = 512;

// "size 478", also as a u16; the last index
pub const HISTORY: usize = 478;

pub const HISTORY_U16: u16 = HISTORY as u16;

pub const LAST_INDEX: u16 = HISTORY_U16 - 1;

// "Empty history is all 80h, index 477"; "80h means missing"
pub const EMPTY_INDEX: u16 = LAST_INDEX;

pub const MISSING: u8 = 0x80;

// "Entries of 560 bytes: 544 of body, a 16-byte trailer at the end", also as u32; at most 117 of them (their places: entry.rt).
pub const BODY: usize = 544;

pub const BODY_U32: u32 = BODY as u32;

pub const TRAILER: usize = 16;

pub const TRAILER_U32: u32 = TRAILER as u32;

pub const ENTRY: usize = BODY + TRAILER;

pub const ENTRY_U32: u32 = ENTRY as u32;

pub const ENTRIES: usize = 117;

pub const IMAGE_LIMIT: usize = ENTRY * ENTRIES;
