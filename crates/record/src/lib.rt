// The device record: the device as a struct (device.rt), decoded from the record's bytes (codec.rt); the names in requests and keys (names.rt).
#![tactic(auto)]

mod codec;
mod device;
mod names;

pub use codec::{
    code_at, decode, fill_at, native_at, settings_at, stage_at, stage_number, transfer_at,
    visible_at,
};
pub use device::{
    Command, Device, Feature, Fill, Settings, Slot, Stage, Thermal, Transfer, next_sector,
};
pub use names::{Direction, FeatureName};
