// How the key sector is decided.
ghost use Rattle.std.specs.Prelude.{◌≡◌, ◌+◌, ◌≤◌, ◌<◌, length};
ghost use Rattle.wire.specs.Parts.{part};
ghost use Rattle.model.specs.Sizes.{sector_size, port_count};
ghost use Rattle.model.specs.Registers.{data_of};
ghost use Rattle.model.specs.Key.{word};
ghost use Rattle.model.specs.Update.{with_key};
ghost use Rattle.model.specs.Fill.{interrupt};
ghost use Rattle.model.specs.Decide.{decide_key};
ghost use Rattle.store.specs.Areas.{private_size};
ghost use Rattle.store.specs.Store.{slot_bytes};
ghost use Rattle.device_update.specs.Change.{Changed};
ghost use Rattle.decision.specs.DecisionMeaning.{Decided};

use decision::{Decision, replied};
use key::Verdict;
use layout::{MAILBOX, REGISTERS, sct};
use record::Device;
use wire::Number;

// The device with its fill stopped, and the words of the key at `at` recorded.
fn recorded(area: &[u8], at: usize, d: Device) -> Device
    requires { (at + sector_size ≤ length area.now) × (length d.slots ≡ port_count) }
    ensures { Changed (λ x. with_key (word (part area.now at sector_size) 0) (word (part area.now at sector_size) 1) (interrupt x)) d result }
{
    let stopped = device_update::interrupt(d);
    device_update::with_key(
        stopped,
        u16::get(area, at),
        u16::get(area, at + sct::FUNCTION_AT),
    )
}

// "Words 0 and 1 are action and function; both are recorded from every key, accepted or not." "A refused key stores its code", and has
// its word in the reply (W-206). "An accepted key stores 0000h".
pub fn decide_key(area: &[u8], p: usize, d: Device) -> Decision
    requires { (length area.now ≡ private_size) × (p < port_count) × (length d.slots ≡ port_count) × (1 ≤ d.visible) }
    ensures { Decided (slot_bytes p area.now) (λ x. decide_key p (data_of (slot_bytes p area.now)) (interrupt x)) d result }
{
    let at = MAILBOX * p + REGISTERS;
    let e = recorded(area, at, d);
    let key = key::read_key(area, at, d.locked, d.visible);
    let Verdict::Accepted(action) = key else {
        let refusal = key::refusal_of(key);
        return replied(
            device_update::with_code(e, refusal.code),
            reply::refused_with(refusal.code, refusal.word),
        );
    };
    decision::carry_out(device_update::with_code(e, sct::COMPLETE), p, action)
}
