// The check of a sector, and the repair that it allows (change request W-202). The definitions are in specs/.
#![tactic(auto)]

mod repairing;
mod row;
mod sector;
mod word;

pub use repairing::{Report, repair};
pub use sector::check_of;
