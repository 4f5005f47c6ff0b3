// A saved image converted from one form to the other (converting.rt).
#![tactic(auto)]

mod converting;

pub use converting::convert;
