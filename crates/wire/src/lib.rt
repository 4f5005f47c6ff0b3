// Numbers in runs of bytes, read and stored. The definitions of the fields and parts of a run are in specs/.
#![tactic(auto)]

mod number;

pub use number::{Number, bit_of};
