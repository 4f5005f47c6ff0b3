// The timer of time-limited commands: its states, and the next one for a setting, a qualified command, a flush and passing time.
ghost use Rattle.std.specs.Prelude.{◌≡◌};
ghost use Rattle.timing.specs.Timer.{set_to, started, commanded, rearmed, passed, is_disabled, is_expired};

// "The timer is disabled, armed, running or expired." Limit and time run are in milliseconds.
#[derive(Clone, Copy)]
pub enum Timer {
    Disabled,
    Armed { limit: u32 },
    Running { limit: u32, run: u32 },
    Expired { limit: u32 },
}

// A unit of Sector Count in milliseconds: "that many times 10 ms".
const UNIT: u32 = 10;

impl Timer {
    // "Sector Count 0 disables it; 1 to 255 arms it": whatever it was before.
    pub fn set(self, count: u8) -> Timer
        ensures { result ≡ set_to self count }
    {
        match count {
            0 => Timer::Disabled,
            _ => Timer::Armed {
                limit: UNIT * u32::from(count),
            },
        }
    }

    // A qualified command, a timed read or write: it starts an armed timer as it begins, and then takes its time.
    pub fn command(self, duration: u32) -> Timer
        ensures { result ≡ commanded self duration }
    {
        self.start().pass(duration)
    }

    // "a completed flush stops and arms it again, unless it is disabled"
    pub fn flush(self) -> Timer
        ensures { result ≡ rearmed self }
    {
        match self {
            Timer::Running { limit, .. } | Timer::Expired { limit } => Timer::Armed { limit },
            _ => self,
        }
    }

    // Time passes: it runs in a running timer only. Where the sum of 32 bits saturates, it is no less than any limit.
    pub fn pass(self, duration: u32) -> Timer
        ensures { result ≡ passed self duration }
    {
        match self {
            Timer::Running { limit, run } => {
                let run = run.saturating_add(duration);
                if run < limit {
                    Timer::Running { limit, run }
                } else {
                    Timer::Expired { limit }
                }
            }
            _ => self,
        }
    }

    // "The first timed read or write after arming starts it as it begins"
    fn start(self) -> Timer
        ensures { result ≡ started self }
    {
        match self {
            Timer::Armed { limit } => Timer::Running { limit, run: 0 },
            _ => self,
        }
    }

    pub fn is_disabled(self) -> bool
        ensures { result ≡ is_disabled self }
    {
        matches!(self, Timer::Disabled)
    }

    pub fn is_expired(self) -> bool
        ensures { result ≡ is_expired self }
    {
        matches!(self, Timer::Expired { .. })
    }
}
