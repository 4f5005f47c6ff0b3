// How a record is written: the device's fields (fields.rt), readings of the history (history.rt), and an initialised record (framing.rt).
#![tactic(auto)]

mod fields;
mod framing;
mod history;

pub use fields::{put_stage, write};
pub use framing::frame;
pub use history::{empty_history, log_reading};
