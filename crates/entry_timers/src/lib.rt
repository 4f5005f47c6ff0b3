// The recovery timers of an entry of the saved image (W-204): as an Option and as its bytes, and the forms of an entry (timers.rt).
#![tactic(auto)]

mod timers;

pub use timers::{
    Form, Timers, UnknownForm, form_of, put_timers, timers_at, timers_in, timers_meant,
    timers_named,
};
