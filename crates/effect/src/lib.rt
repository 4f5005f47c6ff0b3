// The effects of a decision, each on its buffer: what is written (writes.rt), the record with the slot answered (answered.rt), and the reply
// (sends.rt).
#![tactic(auto)]

mod answered;
mod sends;
mod writes;

pub use answered::finish;
pub use sends::send;
pub use writes::{device_after, write};
