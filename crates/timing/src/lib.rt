// Time-limited commands (W-208): the timer (timer.rt), a command of a bus trace (command.rt), what a drive makes of it (drive.rt).
// The definitions that the contracts cite are in specs/.
#![tactic(auto)]

mod command;
mod drive;
mod timer;

pub use command::{Command, Kind, RECORD, command_at};
pub use drive::{Drive, Mode, Outcome, Traced};
pub use timer::Timer;
