// A temperature sample: the temperatures by value (thermal.rt), then the record's bytes with its history (logging.rt).
#![tactic(auto)]

mod logging;
mod thermal;

pub use logging::sample;
