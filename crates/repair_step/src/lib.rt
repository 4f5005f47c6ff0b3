// The repair step on record, visible disk and check area: a sector repaired by its check bytes, and the device afterwards.
#![tactic(auto)]

mod repairing;

pub use repairing::repair;
