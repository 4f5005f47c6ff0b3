// The twelve entries that the firmware calls: the steps of a port (ports.rt), work (works.rt), those of the owner (owner.rt, repairs.rt), and what is
// done with a saved image (images.rt). The mailbox is a parameter of sct_take and sct_give only.
#![tactic(auto)]

mod images;
mod owner;
mod ports;
mod repairs;
mod result;
mod works;

pub use images::{sct_convert, sct_power_on, sct_save};
pub use owner::{sct_lock, sct_sample, sct_set_visible, sct_unlock};
pub use ports::{sct_give, sct_serve, sct_take};
pub use repairs::sct_repair;
pub use result::result_of;
pub use works::sct_work;
