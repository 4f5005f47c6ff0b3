// The text of a trace: records in bytes, and a line for each.
#![tactic(auto)]

mod lines;

pub use lines::{CUT, LINE, Progress, put_trace};
