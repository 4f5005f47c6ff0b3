// The trace program: reads records of time-limited commands from standard input in blocks, and prints a line for each.
#![tactic(auto)]

use std::io::{self, Read, Write};
use timing::{Drive, RECORD};
use trace_lines::{CUT, LINE};

// A block: so many records, and the room for their lines.
const RECORDS: usize = 8192;

const INPUT: usize = RECORDS * RECORD;

const TEXT: usize = RECORDS * LINE + CUT;

// Reads block after block and prints their lines. The loop is counted, so that it ends; it leaves off where the input does.
fn all<R: Read, W: Write>(reader: &mut R, out: &mut W) -> io::Result<()> {
    let mut input = [0u8; INPUT];
    let mut text = [0u8; TEXT];
    let mut drive = Drive::start();
    for _ in 0..u64::MAX {
        let count = console::read_full(reader, &mut input)?;
        let printed = trace_lines::put_trace(drive, &input[..count], &mut text);
        out.write_all(&text[..printed.end])?;
        if count < INPUT {
            break;
        }
        drive = printed.drive;
    }
    Ok(())
}

fn main(rt: HostRuntime) -> io::Result<()> {
    all(&mut rt.reader(), &mut io::writer(&rt))
}
