// A status read: its reply in the slot, and the slot's stage (status.rt).
#![tactic(auto)]

mod status;

pub use status::serve_status;
