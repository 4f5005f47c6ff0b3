// A drive with time-limited commands: its timer and mode, and what it makes of one command.
ghost use Rattle.std.specs.Prelude.{◌≡◌};
ghost use Rattle.timing.specs.Drive.{at_start, mode_of, as_chosen, access_outcome, flush_outcome, at_end, traced_as, mode_set, ended, traced};

use crate::command::{Command, Kind};
use crate::timer::Timer;

// What becomes of a read or write whose timer has expired: "Features 21h with 0 chooses abort, 1 choosing continue."
#[derive(Clone, Copy)]
pub enum Mode {
    Abort,
    Continue,
}

// The words of a trace.
#[derive(Clone, Copy)]
pub enum Outcome {
    Done,
    Aborted,
    Continued,
    Deferred,
}

#[derive(Clone, Copy)]
pub struct Drive {
    pub timer: Timer,
    pub mode: Mode,
}

// What became of a command, and the drive after it.
#[derive(Clone, Copy)]
pub struct Traced {
    pub outcome: Outcome,
    pub drive: Drive,
}

// The count that chooses to continue, and the greatest that chooses.
const CONTINUE: u8 = 1;

fn result(outcome: Outcome, timer: Timer, mode: Mode) -> Traced
    ensures { result ≡ traced_as outcome timer mode }
{
    Traced {
        outcome,
        drive: Drive { timer, mode },
    }
}

fn mode_of(count: u8) -> Mode
    ensures { result ≡ mode_of count }
{
    match count {
        0 => Mode::Abort,
        _ => Mode::Continue,
    }
}

// The setting of the mode: "feature 21h while disabled, or a count above 1 with it, is aborted and changes nothing but the time passed."
fn set_mode(count: u8, timer: Timer, mode: Mode) -> Traced
    ensures { result ≡ mode_set count timer mode }
{
    if timer.is_disabled() || count > CONTINUE {
        result(Outcome::Aborted, timer, mode)
    } else {
        result(Outcome::Done, timer, mode_of(count))
    }
}

fn as_chosen(mode: Mode) -> Outcome
    ensures { result ≡ as_chosen mode }
{
    match mode {
        Mode::Abort => Outcome::Aborted,
        Mode::Continue => Outcome::Continued,
    }
}

// The outcome of a read or write at whose end this is the timer.
fn access_outcome(timer: Timer, mode: Mode) -> Outcome
    ensures { result ≡ access_outcome timer mode }
{
    if timer.is_expired() {
        as_chosen(mode)
    } else {
        Outcome::Done
    }
}

// The outcome of a flush at whose end this is the timer.
fn flush_outcome(timer: Timer) -> Outcome
    ensures { result ≡ flush_outcome timer }
{
    if timer.is_expired() {
        Outcome::Deferred
    } else {
        Outcome::Done
    }
}

// The timer at the end of a command.
fn at_end(kind: Kind, timer: Timer, duration: u32) -> Timer
    ensures { result ≡ at_end kind timer duration }
{
    match kind {
        Kind::Access => timer.command(duration),
        Kind::SetLimit | Kind::SetMode | Kind::Flush | Kind::Other => timer.pass(duration),
    }
}

// What a command leads to at whose end this is the timer.
fn ended(kind: Kind, count: u8, timer: Timer, mode: Mode) -> Traced
    ensures { result ≡ ended kind count timer mode }
{
    match kind {
        Kind::SetLimit => result(Outcome::Done, timer.set(count), mode),
        Kind::SetMode => set_mode(count, timer, mode),
        Kind::Access => result(access_outcome(timer, mode), timer, mode),
        Kind::Flush => result(flush_outcome(timer), timer.flush(), mode),
        Kind::Other => result(Outcome::Done, timer, mode),
    }
}

impl Drive {
    // "`trace` starts disabled with abort chosen."
    pub fn start() -> Drive
        ensures { result ≡ at_start }
    {
        Drive {
            timer: Timer::Disabled,
            mode: Mode::Abort,
        }
    }

    // One record of a trace.
    #[tactic(auto, unfolding(crate::specs::Drive::traced))]
    pub fn trace(self, command: Command) -> Traced
        ensures { result ≡ traced self command }
    {
        let kind = command.kind();
        let timer = at_end(kind, self.timer, command.duration);
        ended(kind, command.count, timer, self.mode)
    }
}
