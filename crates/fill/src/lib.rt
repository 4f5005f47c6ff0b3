// The background fill on the bytes: the sector that it writes (sector.rt), and how it advances under a budget (steps.rt).
#![tactic(auto)]

mod sector;
mod steps;

pub use sector::{put_data, put_pattern};
pub use steps::work;
