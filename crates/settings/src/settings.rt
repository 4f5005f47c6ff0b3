// How the recovery timers and the features are read and set.
ghost use Rattle.std.specs.Prelude.{◌≡◌};
ghost use Rattle.model.specs.Update.{with_settings};
ghost use Rattle.model.specs.Decide.{timer, with_timer, feature, with_feature};
ghost use Rattle.record.specs.DeviceMeaning.{as_feature, as_settings, as_direction, as_feature_name};
ghost use Rattle.device_update.specs.Change.{Changed};
ghost use Rattle.settings.specs.Features.{FeatureSet, is_interval};

use layout::EMPTY_INDEX;
use record::{Device, Direction, Feature, FeatureName, Settings, Thermal};

// The recovery timer for reads or for writes.
pub fn timer(dir: Direction, s: Settings) -> u16
    ensures { result ≡ timer (as_direction dir) (as_settings s) }
{
    match dir {
        Direction::Read => s.read_timer,
        Direction::Write => s.write_timer,
    }
}

fn with_timer(dir: Direction, n: u16, s: Settings) -> Settings
    ensures { as_settings result ≡ with_timer (as_direction dir) n (as_settings s) }
{
    match dir {
        Direction::Read => Settings { read_timer: n, ..s },
        Direction::Write => Settings {
            write_timer: n,
            ..s
        },
    }
}

// Sets the recovery timer for reads or for writes to n times 100 ms.
pub fn set_timer(d: Device, dir: Direction, n: u16) -> Device
    ensures { Changed (λ x. with_settings (with_timer (as_direction dir) n x.settings) x) d result }
{
    let settings = with_timer(dir, n, d.settings);
    Device { settings, ..d }
}

// A feature's state and option.
pub fn feature(name: FeatureName, s: Settings) -> Feature
    ensures { as_feature result ≡ feature (as_feature_name name) (as_settings s) }
{
    match name {
        FeatureName::WriteCache => s.write_cache,
        FeatureName::Reordering => s.reordering,
        FeatureName::LogInterval => s.log_interval,
    }
}

// Whether a feature is number 3, the log interval.
pub fn is_interval(name: FeatureName) -> bool
    ensures { result ≡ is_interval (as_feature_name name) }
{
    name == FeatureName::LogInterval
}

fn with_feature(name: FeatureName, f: Feature, s: Settings) -> Settings
    ensures { as_settings result ≡ with_feature (as_feature_name name) (as_feature f) (as_settings s) }
{
    match name {
        FeatureName::WriteCache => Settings {
            write_cache: f,
            ..s
        },
        FeatureName::Reordering => Settings { reordering: f, ..s },
        FeatureName::LogInterval => Settings {
            log_interval: f,
            ..s
        },
    }
}

// Sets a feature. "Any set of feature 3 empties the temperature history": index and minutes here; the caller empties the record's history.
pub fn set_feature(d: Device, name: FeatureName, state: u16, persistent: bool) -> Device
    ensures { FeatureSet (as_feature_name name) state persistent d result }
{
    let settings = with_feature(name, Feature { state, persistent }, d.settings);
    if is_interval(name) {
        let thermal = Thermal {
            index: EMPTY_INDEX,
            minutes: 0,
            ..d.thermal
        };
        return Device {
            settings,
            thermal,
            ..d
        };
    }
    Device { settings, ..d }
}
