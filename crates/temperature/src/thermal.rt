// How a sample changes the temperatures, by value. A reading that is logged goes into the record's history, which the caller writes.
ghost use Rattle.std.specs.Prelude.{◌≡◌, not, ◌<◌, suc, ltb};
ghost use Rattle.model.specs.Sizes.{history_size};
ghost use Rattle.model.specs.Temperature.{new_maximum, next_index};
ghost use Rattle.temperature.specs.Sampled.{Sampled};

use layout::{LAST_INDEX, MISSING};
use record::Thermal;

// "A missing sample .. moves no maximum. A missing maximum takes the first real sample."
pub fn new_maximum(sample: u8, old: u8) -> u8
    ensures { result ≡ new_maximum sample old }
{
    if sample == MISSING {
        return old;
    }
    if old == MISSING {
        return sample;
    }
    // "Bytes are two's complement"
    if sample.cast_signed() <= old.cast_signed() {
        return old;
    }
    sample
}

// "a reading is logged at index + 1, and 0 follows 477"
pub fn next_index(index: u16) -> u16
    requires { index < history_size }
    ensures { result ≡ next_index index }
{
    if index == LAST_INDEX { 0 } else { index + 1 }
}

// Whether this minute's sample is logged.
pub fn is_logged(minutes: u16, interval: u16) -> bool
    requires { minutes < interval }
    ensures { result ≡ not (ltb (suc minutes) interval) }
{
    minutes + 1 >= interval
}

// The values after a sample: "When the minutes reach the interval, the sample (missing too) is logged and the minutes restart."
pub fn sampled_thermal(t: Thermal, interval: u16, sample: u8) -> Thermal
    requires { (t.minutes < interval) × (t.index < history_size) }
    ensures { Sampled t interval sample result }
{
    let u = Thermal {
        current: sample,
        cycle_maximum: new_maximum(sample, t.cycle_maximum),
        life_maximum: new_maximum(sample, t.life_maximum),
        ..t
    };
    if is_logged(t.minutes, interval) {
        return Thermal {
            index: next_index(t.index),
            minutes: 0,
            ..u
        };
    }
    Thermal {
        minutes: t.minutes + 1,
        ..u
    }
}
