// The request that a slot's registers encode.
ghost use Rattle.std.specs.Prelude.{◌≡◌, ℕ, ◌+◌, ◌*◌, ◌≤◌, List, length};
ghost use Rattle.wire.specs.Parts.{part};
ghost use Rattle.model.specs.Sizes.{mailbox_size};
ghost use Rattle.model.specs.Registers.{features, count8, count16, lba_low, lba_mid, lba_high, lba48, sector_access, control, log_page, smart_log, log_ext, request_of};
ghost use Rattle.record.specs.DeviceMeaning.{as_direction};
ghost use Rattle.request.specs.RequestMeaning.{as_request};

use layout::ata;
use record::Direction;
use wire::Number;

// A request that "first stops a running fill (code 0008h) and drops an owed transfer". Data is E1h, with its sector count; Sector is 24h or 34h,
// with its sector count and its LBA. Other is "All else, and E0h with another count".
#[derive(Clone, Copy)]
pub enum Operation {
    Key,
    Data(Direction, u16),
    Sector(Direction, u16, u64),
    Other,
}

// "Every request but a well-formed status read" is an operation.
#[derive(Clone, Copy)]
pub enum Request {
    Status,
    Operation(Operation),
}

// "Write E0h: key sector. Read E0h: status."
fn control(dir: Direction) -> Request
    ensures { as_request result ≡ control (as_direction dir) }
{
    match dir {
        Direction::Read => Request::Status,
        Direction::Write => Request::Operation(Operation::Key),
    }
}

// "LBA Low (current) E0h or E1h"; "Sector Count is 1" for E0h, and any for E1h.
fn log_page(dir: Direction, page: u8, count: u16) -> Request
    ensures { as_request result ≡ log_page (as_direction dir) page count }
{
    if page == ata::SCT_STATUS_LOG {
        if count == 1 {
            return control(dir);
        }
        return Request::Operation(Operation::Other);
    }
    if page == ata::SCT_DATA_LOG {
        return Request::Operation(Operation::Data(dir, count));
    }
    Request::Operation(Operation::Other)
}

// "B0h, Features D5h (read log) or D6h (write log), LBA Mid 4Fh, High C2h": for registers that hold these bytes.
fn smart_page(feature: u8, count: u8, page: u8, mid: u8, high: u8) -> Request
    ensures { (m : List ℕ) → features m ≡ feature → count8 m ≡ count → lba_low m ≡ page → lba_mid m ≡ mid → lba_high m ≡ high → as_request result ≡ smart_log m }
{
    if mid != ata::SMART_LBA_MID {
        return Request::Operation(Operation::Other);
    }
    if high != ata::SMART_LBA_HIGH {
        return Request::Operation(Operation::Other);
    }
    if feature == ata::SMART_READ_LOG {
        return log_page(Direction::Read, page, count as u16);
    }
    if feature == ata::SMART_WRITE_LOG {
        return log_page(Direction::Write, page, count as u16);
    }
    Request::Operation(Operation::Other)
}

// "for B0h so are the previous bytes": only the current ones are read.
fn smart_log(area: &[u8], at: usize) -> Request
    requires { at + mailbox_size ≤ length area.now }
    ensures { as_request result ≡ smart_log (part area.now at mailbox_size) }
{
    let feature = u8::get(area, at);
    let count = u8::get(area, at + ata::COUNT_AT);
    let page = u8::get(area, at + ata::LBA_LOW_AT);
    let mid = u8::get(area, at + ata::LBA_MID_AT);
    let high = u8::get(area, at + ata::LBA_HIGH_AT);
    smart_page(feature, count, page, mid, high)
}

// "or 2Fh (read) or 3Fh (write) with both LBA Mid bytes 0"; "Sector Count .. (16 bits for 2Fh and 3Fh)"
fn log_ext(dir: Direction, area: &[u8], at: usize) -> Request
    requires { at + mailbox_size ≤ length area.now }
    ensures { as_request result ≡ log_ext (as_direction dir) (part area.now at mailbox_size) }
{
    if u16::get(area, at + ata::LBA_MID_AT) != 0 {
        return Request::Operation(Operation::Other);
    }
    log_page(
        dir,
        u8::get(area, at + ata::LBA_LOW_AT),
        u16::get(area, at + ata::COUNT_AT),
    )
}

// The number of values of one, two and three bytes.
const BYTE: u64 = 256;

const TWO_BYTES: u64 = 65536;

const THREE_BYTES: u64 = 16777216;

// The number in three bytes, low byte first.
fn join24(a: u8, b: u8, c: u8) -> u64
    ensures { result ≡ a + 256 * b + 65536 * c }
{
    a as u64 + BYTE * (b as u64) + TWO_BYTES * (c as u64)
}

// "the 48-bit LBA, previous bytes giving bits 24 to 47 (document 004)"
fn lba48(area: &[u8], at: usize) -> u64
    requires { at + mailbox_size ≤ length area.now }
    ensures { result ≡ lba48 (part area.now at mailbox_size) }
{
    let current = join24(
        u8::get(area, at + ata::LBA_LOW_AT),
        u8::get(area, at + ata::LBA_MID_AT),
        u8::get(area, at + ata::LBA_HIGH_AT),
    );
    let previous = join24(
        u8::get(area, at + ata::LBA_LOW_PREVIOUS_AT),
        u8::get(area, at + ata::LBA_MID_PREVIOUS_AT),
        u8::get(area, at + ata::LBA_HIGH_PREVIOUS_AT),
    );
    current + THREE_BYTES * previous
}

// "24h and 34h: read or write one sector at the 48-bit LBA", with the Sector Count in 16 bits.
fn sector(dir: Direction, area: &[u8], at: usize) -> Request
    requires { at + mailbox_size ≤ length area.now }
    ensures { as_request result ≡ sector_access (as_direction dir) (count16 (part area.now at mailbox_size)) (lba48 (part area.now at mailbox_size)) }
{
    let count = u16::get(area, at + ata::COUNT_AT);
    let lba = lba48(area, at);
    Request::Operation(Operation::Sector(dir, count, lba))
}

// The request of the slot at `at`. "Input bytes 10 and 12 to 15 are ignored".
pub fn request_of(area: &[u8], at: usize) -> Request
    requires { at + mailbox_size ≤ length area.now }
    ensures { as_request result ≡ request_of (part area.now at mailbox_size) }
{
    let command = u8::get(area, at + ata::COMMAND_AT);
    if command == ata::SMART {
        return smart_log(area, at);
    }
    if command == ata::READ_LOG_EXT {
        return log_ext(Direction::Read, area, at);
    }
    if command == ata::WRITE_LOG_EXT {
        return log_ext(Direction::Write, area, at);
    }
    if command == ata::READ_SECTORS_EXT {
        return sector(Direction::Read, area, at);
    }
    if command == ata::WRITE_SECTORS_EXT {
        return sector(Direction::Write, area, at);
    }
    Request::Operation(Operation::Other)
}
