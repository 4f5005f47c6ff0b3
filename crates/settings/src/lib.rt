// How the recovery timers and the features are read and set, by value.
#![tactic(auto)]

mod settings;

pub use settings::{feature, is_interval, set_feature, set_timer, timer};
