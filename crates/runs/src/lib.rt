// Operations on runs of bytes: copy, set, compare and repeat.
#![tactic(auto)]

mod run;

pub use run::{
    copy_part, copy_within, is_zero, repeat, repeat_within, same_part, set_part, zero_part,
};
