// A save: one entry written after the used length of the saved image (appending.rt).
#![tactic(auto)]

mod appending;

pub use appending::put_entry;
