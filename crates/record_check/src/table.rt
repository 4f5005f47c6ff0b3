// The test of a temperature table in a run of bytes: the record's, or that of a saved entry.
ghost use Rattle.std.specs.Prelude.{◌≡◌, ◌+◌, ◌≤◌, length};
ghost use Rattle.model.specs.Sizes.{sector_size};
ghost use Rattle.store.specs.RecordTests.{table_fixed};

use layout::{HISTORY_U16, table};
use wire::Number;

// Whether the fixed bytes of the table at `at` have their values.
pub fn table_fixed(run: &[u8], at: usize) -> bool
    requires { at + sector_size ≤ length run.now }
    ensures { result ≡ table_fixed run.now at }
{
    let versions = u32::get(run, at);
    let limits = u32::get(run, at + table::LIMITS_AT);
    let zero = runs::is_zero(run, at + table::ZEROS_AT, table::ZEROS);
    let size = u16::get(run, at + table::SIZE_AT);
    (versions == table::VERSIONS) & (limits == table::LIMITS) & (zero & (size == HISTORY_U16))
}
