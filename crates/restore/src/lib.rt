// What power-on restores from the saved image: the record of the newest entry's device, or of an empty image's (newest.rt).
#![tactic(auto)]

mod newest;

pub use newest::put_restored;
