// Text for programs: lines of output written piece by piece (line.rt), and input that comes in records (input.rt).
// The definitions that the contracts cite are in specs/.
#![tactic(auto)]

mod input;
mod line;

pub use input::{Arrival, arrived, read_full, read_record};
pub use line::{Line, put_byte, put_decimal, put_text};
