// The desk program: reads records of one byte and a mailbox from standard input, serves them on one fresh 64-sector disk, prints a line for each.
#![tactic(auto)]

ghost use Rattle.std.specs.Prelude.{◌≡◌, suc, length};
ghost use Rattle.model.specs.Sizes.{mailbox_size};

use console::Arrival;
use desk_session::Machine;
use layout::MAILBOX;
use std::io::{self, Read, Write};

// "records of one byte (work count) and a 528-byte mailbox": W-202 makes them 1,041 bytes.
const INPUT: usize = 1 + MAILBOX;

// Serves record `number` and writes its line.
fn answer<W: Write>(
    machine: &mut Machine,
    out: &mut W,
    number: u64,
    input: &mut [u8],
) -> io::Result<()>
    requires input_len { length input.old ≡ suc mailbox_size }
{
    let n = input[0];
    let line = machine.turn(number, n, &mut input[1..]);
    out.write_all(line.as_bytes())
}

// Serves the records of the input and writes their lines. The loop is counted, so that it ends; it leaves off where the input does.
fn all<R: Read, W: Write>(reader: &mut R, out: &mut W, machine: &mut Machine) -> io::Result<()> {
    for number in 1..=u64::MAX {
        let mut input = [0u8; INPUT];
        match console::read_record(reader, &mut input)? {
            Arrival::Whole => answer(machine, out, number, &mut input)?,
            Arrival::Cut => return out.write_all(b"cut\n"),
            Arrival::End => break,
        }
    }
    Ok(())
}

fn main(rt: HostRuntime) -> io::Result<()> {
    let mut reader = rt.reader();
    let mut out = io::writer(&rt);
    out.write_all(b"n status error code written\n")?;
    all(&mut reader, &mut out, &mut Machine::power_on())
}
