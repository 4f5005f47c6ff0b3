// How the saved image is read: one entry tested in place (entry.rt), the chain of entries (chain.rt), and the answers to an image (refusal.rt).
#![tactic(auto)]

mod chain;
mod entry;
mod refusal;

pub use chain::{chain_form, readable};
pub use entry::{TAG, previous_place};
pub use refusal::{image_checks, save_checks};
