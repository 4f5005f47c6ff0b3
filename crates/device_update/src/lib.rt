// How the device changes, by value: a fill stopped, started and advanced (command.rt); lock, visible size and repair (owner.rt).
#![tactic(auto)]

mod command;
mod owner;

pub use command::{
    interrupt, sector_written, start_fill, with_code, with_flag_cleared, with_key, with_pending,
};
pub use owner::{repaired, set_lock, set_visible};
