// The lines of a run of records.
ghost use Rattle.std.specs.Prelude.{◌≡◌, ◌+◌, ◌≤◌, length};
ghost use Rattle.console.specs.Text.{Begins, Wrote};
ghost use Rattle.timing.specs.Trace.{after};
ghost use Rattle.trace_lines.specs.Lines.{all_commands, line_of, printed, line_limit, room};

use console::put_text;
use timing::{Command, Drive, Outcome, RECORD};

// The most bytes of a line, and those of the line `cut`.
pub const LINE: usize = 10;

pub const CUT: usize = 4;

// The drive after some records, and the length of their lines.
#[derive(Clone, Copy)]
pub struct Progress {
    pub drive: Drive,
    pub end: usize,
}

// The line of an outcome. Four calls, each with a text of known length: one call with a text chosen before took a tenth more time (docs/trace.md).
fn put_outcome(text: &mut [u8], at: usize, outcome: Outcome) -> usize
    requires { at + line_limit ≤ length text.old }
    ensures { Wrote text.old at (line_of outcome) result text.new }
{
    match outcome {
        Outcome::Done => put_text(text, at, b"done\n"),
        Outcome::Aborted => put_text(text, at, b"aborted\n"),
        Outcome::Continued => put_text(text, at, b"continued\n"),
        Outcome::Deferred => put_text(text, at, b"deferred\n"),
    }
}

// Prints a run of bytes: a line for each whole record, and `cut` for what is left of one.
pub fn put_trace(drive: Drive, input: &[u8], text: &mut [u8]) -> Progress
    requires { room (length input.now) ≤ length text.old }
    ensures drive_value { result.drive ≡ after drive (all_commands input.now) }
    ensures begins { Begins result.end text.new }
    ensures wrote { Wrote text.old 0 (printed drive input.now) result.end text.new }
{
    let (records, stray) = input.as_chunks::<RECORD>();
    let mut drive = drive;
    let mut end = 0;
    for record in records {
        let traced = drive.trace(Command::from(record));
        end = put_outcome(text, end, traced.outcome);
        drive = traced.drive;
    }
    // "an incomplete last record prints `cut`"
    if !stray.is_empty() {
        end = put_text(text, end, b"cut\n");
    }
    Progress { drive, end }
}
