// A decision by value: the new device, the reply's registers (unless a sector is read whose check differs), what is to be written and what the
// reply is to carry.
ghost use Rattle.model.specs.Registers.{good};
ghost use Rattle.model.specs.Decide.{nothing, writing, sending};
ghost use Rattle.reply.specs.ReplyMeaning.{as_registers};
ghost use Rattle.decision.specs.DecisionMeaning.{as_writing, as_sending, Says};

use record::Device;
use reply::Reply;

// What is to be written: a sector at an LBA, or a fill that begins, with its first sector and its end. The content is in the slot: its
// data for Sector and DataFill, the same with the check bytes behind it for LongSector, the pattern of its key for PatternFill.
#[derive(Clone, Copy)]
pub enum Writing {
    Nothing,
    Sector(u64),
    LongSector(u64),
    PatternFill(u64, u64),
    DataFill(u64, u64),
}

// What the reply is to carry: the temperature table, the sector at an LBA, or that sector with its check bytes as stored. A status read, whose
// reply carries the status sector, is answered without a decision by value (status_read).
#[derive(Clone, Copy)]
pub enum Sending {
    Nothing,
    Temperatures,
    Sector(u64),
    StoredSector(u64),
}

// `empties`: the temperature history, which the record's bytes hold and the device does not, is to be emptied.
#[derive(Clone, Copy)]
pub struct Decision {
    pub device: Device,
    pub reply: Reply,
    pub writes: Writing,
    pub sends: Sending,
    pub empties: bool,
}

// A reply, and nothing else to do.
pub fn replied(device: Device, reply: Reply) -> Decision
    ensures { Says device (as_registers reply) (λ m. nothing) result }
{
    Decision {
        device,
        reply,
        writes: Writing::Nothing,
        sends: Sending::Nothing,
        empties: false,
    }
}

// A good reply without data, and something to write.
pub fn to_write(device: Device, writes: Writing) -> Decision
    ensures { Says device (good 0 0) (λ m. writing (as_writing writes m)) result }
{
    let reply = reply::good(0, 0);
    Decision {
        device,
        reply,
        writes,
        sends: Sending::Nothing,
        empties: false,
    }
}

// A good reply that carries data.
pub fn to_send(device: Device, sends: Sending) -> Decision
    ensures { Says device (good 0 0) (λ m. sending (as_sending sends)) result }
{
    let reply = reply::good(0, 0);
    Decision {
        device,
        reply,
        writes: Writing::Nothing,
        sends,
        empties: false,
    }
}
