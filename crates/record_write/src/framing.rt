// How a record is initialised, whatever was there before: zeros, and the temperature table of an empty history.
ghost use Rattle.std.specs.Prelude.{◌≡◌, length};
ghost use Rattle.store.specs.Areas.{record_size};
ghost use Rattle.record_write.specs.Blank.{blank_record};

use crate::history::empty_history;
use layout::{HISTORY_U16, TABLE_AT, table};
use wire::Number;

pub fn frame(device: &mut [u8])
    requires { length device.old ≡ record_size }
    ensures { device.new ≡ blank_record }
{
    runs::zero_part(device, 0, table::RECORD_HISTORY_AT);
    table::VERSIONS.put(device, TABLE_AT);
    table::LIMITS.put(device, table::RECORD_LIMITS_AT);
    HISTORY_U16.put(device, table::RECORD_SIZE_AT);
    empty_history(device);
}
