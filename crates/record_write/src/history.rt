// The history in the record's bytes: how one reading is logged, and how all of them are removed.
ghost use Rattle.std.specs.Prelude.{◌≡◌, ◌+◌, ◌<◌, length, set};
ghost use Rattle.std.proofs.lemmas.List.Edits.{sets};
ghost use Rattle.model.specs.Sizes.{history_size};
ghost use Rattle.model.specs.Temperature.{table_head_size, empty_history};
ghost use Rattle.store.specs.Areas.{record_size, head_size};

use layout::{HISTORY, MISSING, table};

// Stores a reading at an index of the history.
pub fn log_reading(device: &mut [u8], index: usize, reading: u8)
    requires { (length device.old ≡ record_size) × (index < history_size) }
    ensures { device.new ≡ set device.old (head_size + table_head_size + index) reading }
{
    device[table::RECORD_HISTORY_AT + index] = reading;
}

// "Empty history is all 80h"
pub fn empty_history(device: &mut [u8])
    requires { length device.old ≡ record_size }
    ensures { device.new ≡ sets device.old (head_size + table_head_size) empty_history }
{
    runs::set_part(device, table::RECORD_HISTORY_AT, HISTORY, MISSING);
}
