// One record of a session of port 0: its report line (report.rt); its mailbox is taken, served and given, then work is called (turns.rt),
// on the machine of the session (machine.rt).
#![tactic(auto)]

mod machine;
mod report;
mod turns;

pub use machine::Machine;
pub use report::LINE;
pub use turns::turn;
