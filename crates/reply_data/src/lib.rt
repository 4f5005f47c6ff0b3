// The replies that carry data, on the bytes of a slot: the status sector, the temperature table, a sector of the disk (sector.rt).
#![tactic(auto)]

mod sector;

pub use sector::{put_long, put_read, put_status, put_table};
