// Input that comes in records of one size: a buffer read full, and a record read whole, cut or not at all.
ghost use Rattle.std.specs.Prelude.{◌≡◌, ◌≤◌, length, IfOk};
ghost use Rattle.console.specs.Records.{arrival_of, Filled, RecordRead};

use std::io::{self, Read};

// What a read of one record returned: all of it, a part of it, or nothing.
#[derive(Clone, Copy)]
pub enum Arrival {
    Whole,
    Cut,
    End,
}

// What a read is that returned `count` bytes of a `size`-byte record.
pub fn arrived(count: usize, size: usize) -> Arrival
    ensures { result ≡ arrival_of size count }
{
    match count {
        0 => Arrival::End,
        _ if count < size => Arrival::Cut,
        _ => Arrival::Whole,
    }
}

// Reads until the buffer is full or the input ends. Returns how many bytes were read: these are at the buffer's start.
pub fn read_full<R: Read>(reader: &mut R, buf: &mut [u8]) -> io::Result<usize>
    ensures bound { IfOk result (λ n. n ≤ length buf.new) }
    ensures filled { IfOk result (Filled (R.remaining reader.old) (R.remaining reader.new) buf.new) }
{
    let mut done = 0;
    while done < buf.len() {
        let n = reader.read(&mut buf[done..])?;
        if n == 0 {
            break;
        }
        done += n;
    }
    Ok(done)
}

// Reads one record, of the buffer's size.
pub fn read_record<R: Read>(reader: &mut R, buf: &mut [u8]) -> io::Result<Arrival>
    ensures { IfOk result (RecordRead (R.remaining reader.old) (R.remaining reader.new) buf.new) }
{
    let count = read_full(reader, buf)?;
    Ok(arrived(count, buf.len()))
}
