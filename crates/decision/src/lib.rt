// A decision by value (decision.rt), and what an accepted key decides (accepted.rt). Nothing here writes.
#![tactic(auto)]

mod accepted;
mod decision;

pub use accepted::carry_out;
pub use decision::{Decision, Sending, Writing, replied, to_send, to_write};
