// The report line of a record.
ghost use Rattle.std.specs.Prelude.{◌≡◌};
ghost use Rattle.desk_session.specs.Report.{report};

use console::Line;

// The most bytes of a line, with its end.
pub const LINE: usize = 64;

// The digits of a register, and of the stored code.
const REGISTER: usize = 2;

const CODE: usize = 4;

// "record number from 1, Status, Error, stored code after work, sectors written; first and last in decimal", "capital hex of two, two and four digits"
pub fn report(number: u64, status: u8, error: u8, code: u16, written: u64) -> Line<LINE>
    ensures { result ≡ report number status error code written }
{
    let mut line = Line::new();
    line.push_decimal(number);
    line.push(b' ');
    line.push_hex(REGISTER, u32::from(status));
    line.push(b' ');
    line.push_hex(REGISTER, u32::from(error));
    line.push(b' ');
    line.push_hex(CODE, u32::from(code));
    line.push(b' ');
    line.push_decimal(written);
    line.push(b'\n');
    line
}
