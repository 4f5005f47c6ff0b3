// The checks of take, serve, give, work and repair.
#![tactic(auto)]

mod refusal;

pub use refusal::{mailbox_checks, repair_checks, serve_checks, visible_sectors, work_checks};
