// The steps with a saved image: save and power-on.
#![tactic(auto)]

mod images;

pub use images::{power_on, save};
