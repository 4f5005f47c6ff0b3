// How a temperature sample changes the record's bytes.
ghost use Rattle.std.specs.Prelude.{◌≡◌, true, ◌<◌, length};
ghost use Rattle.model.specs.Sizes.{history_size};
ghost use Rattle.store.specs.Areas.{record_size};
ghost use Rattle.store.specs.Sound.{sound};
ghost use Rattle.store.specs.Entries.{owner_done};
ghost use Rattle.model.specs.Owner.{sample};
ghost use Rattle.temperature.specs.Sampled.{SampledDevice, logged_record};

use crate::thermal::{is_logged, next_index, sampled_thermal};
use record::{Device, Thermal};

// The device after a sample; the history is in the record.
fn sampled_device(d: Device, reading: u8) -> Device
    requires { (d.thermal.minutes < d.settings.log_interval.state) × (d.thermal.index < history_size) }
    ensures { SampledDevice reading d result }
{
    let thermal = sampled_thermal(d.thermal, d.settings.log_interval.state, reading);
    Device { thermal, ..d }
}

// "When the minutes reach the interval, the sample (missing too) is logged"
fn log_sample(device: &mut [u8], t: Thermal, interval: u16, reading: u8)
    requires { (length device.old ≡ record_size) × (t.minutes < interval) × (t.index < history_size) }
    ensures { device.new ≡ logged_record t interval reading device.old }
{
    if !is_logged(t.minutes, interval) {
        return;
    }
    record_write::log_reading(device, next_index(t.index) as usize, reading);
}

// "One sample is one minute." The reading goes into the record's history if it is logged, then the device is written into its fields.
pub fn sample(device: &mut [u8], reading: u8)
    requires { sound device.old ≡ true }
    ensures { device.new ≡ (owner_done (sample reading) device.old).record_area }
{
    let d = record::decode(device);
    log_sample(device, d.thermal, d.settings.log_interval.state, reading);
    let e = sampled_device(d, reading);
    record_write::write(device, e);
}
