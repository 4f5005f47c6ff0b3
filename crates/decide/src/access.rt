// How the data transfer (E1h) and the access to one sector (24h and 34h) are decided.
ghost use Rattle.std.specs.Prelude.{◌≡◌, List, ℕ, length, get_or};
ghost use Rattle.model.specs.Sizes.{port_count};
ghost use Rattle.model.specs.Device.{none};
ghost use Rattle.model.specs.Registers.{data_of, long_data_of, good};
ghost use Rattle.model.specs.Fill.{interrupt};
ghost use Rattle.model.specs.Decide.{decision, transfer_effect, sector_effect, pending_for, decide_data, decide_sector};
ghost use Rattle.record.specs.DeviceMeaning.{as_transfer, pending_of, as_direction};
ghost use Rattle.decision.specs.DecisionMeaning.{Decided};

use decision::{Decision, Sending, Writing, replied, to_send, to_write};
use record::{Device, Direction, Transfer};

// A completed transfer: the table is sent, or a fill begins with the sector that came; W-202: a sector is sent or written with its check bytes.
fn completed(d: Device, t: Transfer) -> Decision
    ensures { (m : List ℕ) → Decided m (λ x. decision x (good 0 0) (transfer_effect (as_transfer t) (long_data_of m))) d result }
{
    match t {
        Transfer::None => replied(d, reply::good(0, 0)),
        Transfer::Table => to_send(d, Sending::Temperatures),
        Transfer::FillData(first, end) => to_write(d, Writing::DataFill(first, end)),
        Transfer::ReadLong(lba) => to_send(d, Sending::StoredSector(lba)),
        Transfer::WriteLong(lba) => to_write(d, Writing::LongSector(lba)),
    }
}

// "E1h is judged", for a port that has t pending: the code is stored, 0000h if the transfer is completed. W-206: "E1h replies keep 0" in LBA Mid.
pub fn decide_data(d: Device, t: Transfer, dir: Direction, count: u16) -> Decision
    requires { length d.slots ≡ port_count }
    ensures { (m : List ℕ) (p : ℕ) → as_transfer t ≡ get_or (pending_of d.slots) p none → Decided m (λ x. decide_data (as_direction dir) count (pending_for p x) (long_data_of m) (interrupt x)) d result }
{
    let code = request::data_code(d.locked, dir, count, t);
    let stopped = device_update::interrupt(d);
    let e = device_update::with_code(stopped, code);
    if code != 0 {
        return replied(e, reply::refused_with(code, 0));
    }
    completed(e, t)
}

// An access that is done: the sector is read, or written.
fn moved(d: Device, dir: Direction, lba: u64) -> Decision
    ensures { (m : List ℕ) → Decided m (λ x. decision x (good 0 0) (sector_effect (as_direction dir) lba (data_of m))) d result }
{
    match dir {
        Direction::Read => to_send(d, Sending::Sector(lba)),
        Direction::Write => to_write(d, Writing::Sector(lba)),
    }
}

// "24h and 34h: read or write one sector at the 48-bit LBA"
pub fn decide_sector(d: Device, dir: Direction, count: u16, lba: u64) -> Decision
    requires { length d.slots ≡ port_count }
    ensures { (m : List ℕ) → Decided m (λ x. decide_sector (as_direction dir) count lba (data_of m) (interrupt x)) d result }
{
    let error = request::sector_error(d.locked, d.visible, count, lba);
    let e = device_update::interrupt(d);
    if error != 0 {
        return replied(e, reply::refused(error));
    }
    moved(e, dir, lba)
}
