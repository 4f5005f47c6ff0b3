// The test of a whole record: the tests on its bytes, and the clauses on what they decode to.
ghost use Rattle.std.specs.Prelude.{◌≡◌};
ghost use Rattle.store.specs.Sound.{sound};

use crate::clauses::device_sound;
use crate::places::{fill_named, flags_named, slots_named, spare_zero};
use crate::table::table_fixed;
use layout::{RECORD, TABLE_AT};

// Whether the record is sound.
pub fn sound(device: &[u8]) -> bool
    ensures { result ≡ sound device.now }
{
    if device.len() != RECORD {
        return false;
    }
    spare_zero(device)
        & flags_named(device)
        & fill_named(device)
        & slots_named(device)
        & table_fixed(device, TABLE_AT)
        & device_sound(device)
}
