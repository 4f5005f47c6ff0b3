// A reply: its registers, and its bytes in the slot.
ghost use Rattle.std.specs.Prelude.{◌≡◌, ◌+◌, ◌≤◌, [], length};
ghost use Rattle.std.proofs.lemmas.List.Edits.{sets};
ghost use Rattle.model.specs.Sizes.{mailbox_size};
ghost use Rattle.model.specs.Registers.{good, refused, refused_with, registers_bytes, reply_bytes};
ghost use Rattle.reply.specs.ReplyMeaning.{as_registers};

use layout::{DATA, REGISTERS, ata};
use runs::zero_part;
use wire::Number;

// The number of values of a byte: the value's low and high byte are in two registers.
const BYTE: u16 = 256;

// `value` goes in Sector Count (low) and LBA Low (high). LBA Mid has the number of sectors that are pending, or the word that a refused key names.
#[derive(Clone, Copy)]
pub struct Reply {
    pub status: u8,
    pub error: u8,
    pub value: u16,
    pub lba_mid: u8,
}

// "Good: Status 50h, Error 0." With a value asked for, and with the number of sectors that are pending.
pub fn good(value: u16, sectors: u8) -> Reply
    ensures { as_registers result ≡ good value sectors }
{
    Reply {
        status: ata::STATUS_GOOD,
        error: ata::NO_ERROR,
        value,
        lba_mid: sectors,
    }
}

// "Refused: Status 51h"
pub fn refused(error: u8) -> Reply
    ensures { as_registers result ≡ refused error }
{
    Reply {
        status: ata::STATUS_REFUSED,
        error,
        value: 0,
        lba_mid: 0,
    }
}

// "SCT refusals have Error 04h and the extended code in Sector Count (low) and LBA Low (high)." W-206, of "the word that caused it": "The key
// reply carries it in LBA Mid; E1h replies keep 0." The word is 0 for all but a key.
pub fn refused_with(code: u16, word: u8) -> Reply
    ensures { as_registers result ≡ refused_with code word }
{
    Reply {
        status: ata::STATUS_REFUSED,
        error: ata::ERROR_ABORTED,
        value: code,
        lba_mid: word,
    }
}

// Writes the registers of a reply. "In a reply every byte not named is 0"
fn put_registers(area: &mut [u8], at: usize, r: Reply)
    requires { at + mailbox_size ≤ length area.old }
    ensures { area.new ≡ sets area.old at (registers_bytes (as_registers r)) }
{
    zero_part(area, at, REGISTERS);
    ((r.value % BYTE) as u8).put(area, at + ata::COUNT_AT);
    ((r.value / BYTE) as u8).put(area, at + ata::LBA_LOW_AT);
    r.lba_mid.put(area, at + ata::LBA_MID_AT);
    r.status.put(area, at + ata::STATUS_AT);
    r.error.put(area, at + ata::ERROR_AT);
}

// Writes a reply without data. ".. and the sector is zeros unless data is returned."
pub fn put_reply(area: &mut [u8], at: usize, r: Reply)
    requires { at + mailbox_size ≤ length area.old }
    ensures { area.new ≡ sets area.old at (reply_bytes (as_registers r) []) }
{
    put_registers(area, at, r);
    zero_part(area, at + REGISTERS, DATA);
}
