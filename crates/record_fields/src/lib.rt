// How a device's fields are stored in a record: cases as numbers (cases.rt), and the fields of the first half by groups (groups.rt).
#![tactic(auto)]

mod cases;
mod groups;

pub use groups::{put_command, put_fill, put_settings, put_sizes, put_slots, put_thermal};
