// The owner steps on the record: lock, unlock, set V, sample.
#![tactic(auto)]

mod owner;

pub use owner::{lock, sample, set_visible, unlock};
