// The device as a struct by value. The history stays in the record's bytes, which keeps the struct small.
ghost use Rattle.std.specs.Prelude.{◌≡◌, ℕ};
ghost use Rattle.model.specs.Device.{next_sector};
ghost use Rattle.model.specs.Image.{kept, blank, settings_of, power_on_settings};
ghost use Rattle.record.specs.DeviceMeaning.{as_fill, as_feature, as_settings};

use layout::PORTS;

#[derive(Clone, Copy, PartialEq, Eq)]
pub enum Stage {
    Empty,
    Held,
    Answered,
}

// A pending transfer, 01's owed transfer: the temperature table to the host, or a fill's sector from it, with the fill's first
// sector and its end (the first sector after it). W-202: the sector at an LBA with its check bytes, to the host or from it.
#[derive(Clone, Copy, PartialEq, Eq)]
pub enum Transfer {
    None,
    Table,
    FillData(u64, u64),
    ReadLong(u64),
    WriteLong(u64),
}

// No fill, or one that runs: its first sector, the next to write, and its end.
#[derive(Clone, Copy, PartialEq, Eq)]
pub enum Fill {
    Idle,
    Running(u64, u64, u64),
}

// The next sector that a fill writes, 0 with no fill.
pub fn next_sector(fill: Fill) -> u64
    ensures { result ≡ next_sector (as_fill fill) }
{
    match fill {
        Fill::Idle => 0,
        Fill::Running(_, next, _) => next,
    }
}

// A port's slot: its stage, and the transfer that the port has pending.
#[derive(Clone, Copy, PartialEq, Eq)]
pub struct Slot {
    pub stage: Stage,
    pub pending: Transfer,
}

// The last SCT command.
#[derive(Clone, Copy, PartialEq, Eq)]
pub struct Command {
    pub code: u16,
    pub action: u16,
    pub function: u16,
    pub fill: Fill,
}

// A feature's state, and whether it is kept over power: 01's mark.
#[derive(Clone, Copy, PartialEq, Eq)]
pub struct Feature {
    pub state: u16,
    pub persistent: bool,
}

// The recovery timers of reads and writes, in 100 ms, and the three features.
#[derive(Clone, Copy, PartialEq, Eq)]
pub struct Settings {
    pub read_timer: u16,
    pub write_timer: u16,
    pub write_cache: Feature,
    pub reordering: Feature,
    pub log_interval: Feature,
}

// The temperatures now, of this power cycle and of the device's life; the newest reading's index; the minutes counted.
#[derive(Clone, Copy, PartialEq, Eq)]
pub struct Thermal {
    pub current: u8,
    pub cycle_maximum: u8,
    pub life_maximum: u8,
    pub index: u16,
    pub minutes: u16,
}

// "four slots of 528" (1,040 since W-202): a struct for each.
#[derive(Clone, Copy, PartialEq, Eq)]
pub struct Device {
    pub native: u64,
    pub visible: u64,
    pub locked: bool,
    pub initialized: bool,
    pub command: Command,
    pub settings: Settings,
    pub thermal: Thermal,
    pub slots: [Slot; PORTS],
}

impl Settings {
    // W-203: "Both error recovery timers shall be 70 (7 seconds) at power-on."
    pub const POWER_ON_TIMER: u16 = 70;
    // ".. other states return to 1."
    const STATE_NOT_KEPT: u16 = 1;

    // A feature at power-on: "Option 1 keeps a state over power".
    fn kept(f: Feature) -> Feature
        ensures { as_feature result ≡ kept (as_feature f) }
    {
        if f.persistent {
            f
        } else {
            Feature {
                state: Self::STATE_NOT_KEPT,
                persistent: f.persistent,
            }
        }
    }

    // The settings at power-on, from the timers and the saved features.
    pub fn power_on(
        read_timer: u16,
        write_timer: u16,
        write_cache: Feature,
        reordering: Feature,
        log_interval: Feature,
    ) -> Settings
        ensures { as_settings result ≡ settings_of read_timer write_timer (as_feature write_cache) (as_feature reordering) (as_feature log_interval) }
    {
        Settings {
            read_timer,
            write_timer,
            write_cache: Self::kept(write_cache),
            reordering: Self::kept(reordering),
            log_interval: Self::kept(log_interval),
        }
    }

    // The defaults: the settings at power-on from an empty image.
    pub fn defaults() -> Settings
        ensures { (native : ℕ) → as_settings result ≡ power_on_settings (blank native) }
    {
        let f = Feature {
            state: Self::STATE_NOT_KEPT,
            persistent: false,
        };
        Self::power_on(Self::POWER_ON_TIMER, Self::POWER_ON_TIMER, f, f, f)
    }
}
