// How a request is answered, on the bytes of a slot: the reply's registers, and a reply without data (registers.rt).
#![tactic(auto)]

mod registers;

pub use registers::{Reply, good, put_reply, refused, refused_with};
