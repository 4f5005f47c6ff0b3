// The fill's sector in the private area: from the pattern of a key in a slot, or from the data of a slot.
ghost use Rattle.std.specs.Prelude.{◌≡◌, ◌<◌, length};
ghost use Rattle.std.proofs.lemmas.List.Edits.{sets};
ghost use Rattle.model.specs.Sizes.{port_count};
ghost use Rattle.model.specs.Registers.{data_of};
ghost use Rattle.model.specs.Key.{pattern_sector};
ghost use Rattle.store.specs.Areas.{fill_place, private_size};
ghost use Rattle.store.specs.Store.{slot_bytes};

use layout::{FILL_AT, MAILBOX, REGISTERS, SECTOR, sct};

// The offset of the key's pattern from the slot's first byte.
const PATTERN_AT: usize = REGISTERS + sct::PATTERN_AT;

// "bytes 20-23 repeated 128 times", of the key in slot p.
pub fn put_pattern(area: &mut [u8], p: usize)
    requires { (length area.old ≡ private_size) × (p < port_count) }
    ensures { area.new ≡ sets area.old fill_place (pattern_sector (data_of (slot_bytes p area.old))) }
{
    runs::repeat_within(
        area,
        FILL_AT,
        MAILBOX * p + PATTERN_AT,
        sct::PATTERN_REPEATS,
    );
}

// The sector that slot p holds.
pub fn put_data(area: &mut [u8], p: usize)
    requires { (length area.old ≡ private_size) × (p < port_count) }
    ensures { area.new ≡ sets area.old fill_place (data_of (slot_bytes p area.old)) }
{
    runs::copy_within(area, FILL_AT, MAILBOX * p + REGISTERS, SECTOR);
}
