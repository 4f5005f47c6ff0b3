// How any operation is decided.
ghost use Rattle.std.specs.Prelude.{◌≡◌, List, ℕ, ◌≤◌, ◌<◌, length, get_or};
ghost use Rattle.model.specs.Sizes.{port_count};
ghost use Rattle.model.specs.Device.{none};
ghost use Rattle.model.specs.Registers.{refused};
ghost use Rattle.model.specs.Fill.{interrupt};
ghost use Rattle.model.specs.Decide.{decision, nothing, decide_request};
ghost use Rattle.store.specs.Areas.{private_size};
ghost use Rattle.store.specs.Store.{slot_bytes};
ghost use Rattle.record.specs.DeviceMeaning.{as_transfer, pending_of};
ghost use Rattle.request.specs.RequestMeaning.{as_operation};
ghost use Rattle.decision.specs.DecisionMeaning.{Decided};

use crate::access::{decide_data, decide_sector};
use crate::key_sector::decide_key;
use decision::{Decision, replied};
use layout::ata;
use record::{Device, Transfer};
use request::Operation;

// "All else ..: Error 04h, stored code unchanged unless a fill was stopped."
fn decide_other(d: Device) -> Decision
    requires { length d.slots ≡ port_count }
    ensures { (m : List ℕ) → Decided m (λ x. decision (interrupt x) (refused 0x04) nothing) d result }
{
    replied(
        device_update::interrupt(d),
        reply::refused(ata::ERROR_ABORTED),
    )
}

// Decides the operation o, which slot p of the private area holds, for the device d; the port has t pending.
pub fn decide(o: Operation, area: &[u8], p: usize, d: Device, t: Transfer) -> Decision
    requires area_len { (length area.now ≡ private_size) × (p < port_count) × (length d.slots ≡ port_count) × (1 ≤ d.visible) }
    requires pending { as_transfer t ≡ get_or (pending_of d.slots) p none }
    ensures { Decided (slot_bytes p area.now) (decide_request (as_operation o) (record { port = p }) (slot_bytes p area.now)) d result }
{
    match o {
        Operation::Key => decide_key(area, p, d),
        Operation::Data(dir, count) => decide_data(d, t, dir, count),
        Operation::Sector(dir, count, lba) => decide_sector(d, dir, count, lba),
        Operation::Other => decide_other(d),
    }
}
